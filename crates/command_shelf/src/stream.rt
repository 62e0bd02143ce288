//! Any reader and any writer.

ghost use Rattle.std.specs.Prelude.{◌≡◌, ◌≤◌, ◌+◌, ◌++◌, length, take, OnOk, IfSome, IfErr, Err};
ghost use Rattle.std.specs.Io.KnownBytes.{Appends};
ghost use Rattle.command_shelf.specs.Shelf.{Begins};
ghost use Rattle.command_shelf.specs.Stream.{AppendsPart};

use crate::fault::ShelfFault;
use std::io::{Read, Write};

/// Appends the bytes that the reader has left, but at most so many. An interrupted read is not tried again.
///
/// # Errors
///
/// `Failed` where a read is refused, `Memory` where memory runs out; what was read until then is appended.
pub fn read_bytes<F: Read>(from: &mut F, most: usize, into: &mut Vec<u8>) -> Result<(), ShelfFault>
    ensures begins { Begins into.old.items into.new.items }
    ensures limit { length into.new.items ≤ length into.old.items + most }
    ensures whole { OnOk result (IfSome (F.remaining from.old)
        (λ bytes. into.new.items ≡ into.old.items ++ take most bytes)) }
{
    let mut buffer = [0u8; 4096];
    let mut left = most;
    while left > 0 {
        let room = left.min(buffer.len());
        let part = &mut buffer[..room];
        let Ok(count) = from.read(part) else {
            return Err(ShelfFault::Failed);
        };
        if count == 0 {
            return Ok(());
        }
        into.extend_from_slice(&part[..count])?;
        left -= count;
    }
    Ok(())
}

/// Writes all of the bytes. An interrupted write is not tried again, and a write that takes
/// nothing is a fault.
///
/// # Errors
///
/// `Failed` where a write is refused or takes nothing; a first part of the bytes may be written.
pub fn write_bytes<W: Write>(to: &mut W, bytes: &[u8]) -> Result<(), ShelfFault>
    ensures whole { OnOk result (Appends (W.contents to.old) (W.contents to.new) bytes.now) }
    ensures part { AppendsPart (W.contents to.old) (W.contents to.new) bytes.now }
    ensures only { IfErr result (λ fault. fault ≡ ShelfFault.Failed) }
{
    let mut done = 0;
    while done < bytes.len() {
        let Ok(count) = to.write(&bytes[done..]) else {
            return Err(ShelfFault::Failed);
        };
        if count == 0 {
            return Err(ShelfFault::Failed);
        }
        done += count;
    }
    Ok(())
}
