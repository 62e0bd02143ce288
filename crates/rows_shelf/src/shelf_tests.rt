//! What the disk and both shelves in memory answer with ample memory.
//!
//! Also where a text is no certificate, and where it is longer than what is asked; readers and writers that
//! are interrupted, and one that takes nothing.

use command_shelf::{
    DiskShelf, MemoryShelf, QuietShelf, Shelf, ShelfFault, read_bytes, write_bytes,
};
use std::alloc::Global;
use std::io::{ErrorKind, Read, Write};
use std::test::Fail;
use std::{fs, io};

// Gives or takes one byte a call, and then is interrupted.
#[derive(Drop)]
struct Interrupted {
    calls: u8,
}

impl Interrupted {
    fn call(&mut self) -> io::Result<()> {
        if self.calls == 0 {
            return Err(io::Error::from(ErrorKind::Interrupted));
        }
        self.calls -= 1;
        Ok(())
    }
}

impl Read for Interrupted {
    fn read(&mut self, buffer: &mut [u8]) -> io::Result<usize> {
        self.call()?;
        if buffer.is_empty() {
            return Ok(0);
        }
        buffer[0] = b'a';
        Ok(1)
    }
}

impl Write for Interrupted {
    fn write(&mut self, bytes: &[u8]) -> io::Result<usize> {
        self.call()?;
        Ok(bytes.len().min(1))
    }

    fn flush(&mut self) -> io::Result<()> {
        Ok(())
    }
}

// Takes nothing.
#[derive(Drop)]
struct Full;

impl Write for Full {
    fn write(&mut self, _bytes: &[u8]) -> io::Result<usize> {
        Ok(0)
    }

    fn flush(&mut self) -> io::Result<()> {
        Ok(())
    }
}

const HELD: &str = "shelf_text.txt";

/// More bytes than a text of these tests has.
const MOST: usize = 100;

/// Texts, each of which may be stored over the one before, and what a buffer that began with `in:` has once
/// they were fetched into it.
const TEXTS: [(&str, &str); 3] = [
    ("proof 1\nfirst\n", "in:proof 1\nfirst\n"),
    ("", "in:"),
    ("2\r\n#", "in:2\r\n#"),
];

const ALL_SAID: &str = "proof 1\nfirst\n2\r\n#";

/// Whether a text is fetched as it was stored, behind what the buffer has, and an absent name is refused.
fn fetches<S: Shelf>(shelf: &mut S, into: &mut Vec<u8>, text: &str, want: &str) -> bool {
    shelf.store(HELD, text.as_bytes()).is_ok()
        && shelf.fetch(HELD, MOST, into).is_ok()
        && shelf.fetch("shelf_absent.txt", MOST, into) == Err(ShelfFault::Failed)
        && into.as_slice() == want.as_bytes()
}

/// Whether the last of the texts is left alone, since it is no certificate, and a free name is not.
fn leaves<S: Shelf>(shelf: &mut S, into: &mut Vec<u8>) -> bool {
    shelf.may_store(HELD) == Err(ShelfFault::Failed)
        && shelf.store(HELD, b"proof 1\nnew") == Err(ShelfFault::Failed)
        && shelf.fetch(HELD, MOST, into).is_ok()
        && into.as_slice() == b"in:2\r\n#".as_slice()
        && shelf.may_store("shelf_absent.txt").is_ok()
}

/// Limits for the last of the texts, which has four bytes, and what is fetched of it: one byte more than the
/// limit at most.
const FRONTS: [(usize, &str); 4] = [(0, "2"), (2, "2\r\n"), (3, "2\r\n#"), (4, "2\r\n#")];

/// Whether of the last of the texts so much is fetched.
fn fetches_fronts<S: Shelf>(alloc: Global, shelf: &mut S) -> bool {
    for (most, want) in &FRONTS {
        let mut into = Vec::new(alloc);
        if shelf.fetch(HELD, *most, &mut into).is_err() || into.as_slice() != want.as_bytes() {
            return false;
        }
    }
    true
}

/// Whether a shelf with ample memory answers as it should, where nothing is held yet.
fn answers<S: Shelf>(alloc: Global, shelf: &mut S) -> Result<bool, Fail> {
    for (text, want) in &TEXTS {
        let mut into = b"in:".to_vec(alloc)?;
        if !fetches(shelf, &mut into, text, want) || shelf.say(text.as_bytes()).is_err() {
            return Ok(false);
        }
    }
    let mut into = b"in:".to_vec(alloc)?;
    Ok(leaves(shelf, &mut into) && fetches_fronts(alloc, shelf))
}

#[test]
fn a_quiet_shelf_answers(rt: HostRuntime) -> Result<(), Fail> {
    let mut shelf = QuietShelf::new(rt.alloc());
    shelf.put(HELD, b"proof 2\nput")?;
    assert!(rt; answers(rt.alloc(), &mut shelf)?);
    assert!(rt; shelf.said() == ALL_SAID.as_bytes());
    Ok(())
}

#[test]
fn a_memory_shelf_answers(rt: HostRuntime) -> Result<(), Fail> {
    let mut shelf = MemoryShelf::new(rt.alloc(), Vec::new(rt.alloc()));
    shelf.put(HELD, b"proof 2\nput")?;
    assert!(rt; answers(rt.alloc(), &mut shelf)?);
    assert!(rt; shelf.said() == ALL_SAID.as_bytes());
    Ok(())
}

// The file is taken away again, so that a test leaves nothing where it runs.
#[test]
fn the_disk_answers(rt: HostRuntime) -> Result<(), Fail> {
    let answers = answers(rt.alloc(), &mut DiskShelf::new(&rt));
    let removed = fs::remove_file(&rt, HELD);
    assert!(rt; answers? && removed.is_ok());
    Ok(())
}

/// Texts, and whether a text may be stored over each.
pub(crate) const STORED_OVER: [(&str, bool); 17] = [
    ("", true),
    ("proof 1\n", true),
    ("proof 2\n", true),
    ("proof 1\r\ncost 4", true),
    ("proof 2\r", true),
    ("proof 1", false),
    ("proof 2", false),
    ("proof 1 \n", false),
    ("proof 12\n", false),
    ("proof 3\n", false),
    ("proof\n", false),
    ("proof \n", false),
    ("proof of my invention\n", false),
    ("Proof 1\n", false),
    (" proof 1\n", false),
    ("report 1\n", false),
    ("\nproof 1\n", false),
];

#[test]
fn a_quiet_shelf_asks_the_first_line(rt: HostRuntime) -> Result<(), Fail> {
    let mut shelf = QuietShelf::new(rt.alloc());
    for (text, may) in &STORED_OVER {
        shelf.put(HELD, text.as_bytes())?;
        if shelf.may_store(HELD).is_ok() != *may {
            return Err(Fail::from(*text));
        }
    }
    Ok(())
}

#[test]
fn a_memory_shelf_asks_the_first_line(rt: HostRuntime) -> Result<(), Fail> {
    let mut shelf = MemoryShelf::new(rt.alloc(), Vec::new(rt.alloc()));
    for (text, may) in &STORED_OVER {
        shelf.put(HELD, text.as_bytes())?;
        if shelf.may_store(HELD).is_ok() != *may {
            return Err(Fail::from(*text));
        }
    }
    Ok(())
}

/// Whether what a reader gives is appended up to a limit, and a fault after so many calls is told.
fn reads(into: &mut Vec<u8>) -> bool {
    read_bytes(&mut b"text".as_slice(), 100, into).is_ok()
        && read_bytes(&mut b"text".as_slice(), 3, into).is_ok()
        && read_bytes(&mut Interrupted { calls: 2 }, 2, into).is_ok()
        && read_bytes(&mut Interrupted { calls: 2 }, 3, into) == Err(ShelfFault::Failed)
        && into.as_slice() == b"texttexaaaa".as_slice()
}

#[test]
fn reading_stops_at_a_fault(rt: HostRuntime) -> Result<(), Fail> {
    let mut into = Vec::new(rt.alloc());
    assert!(rt; reads(&mut into));
    Ok(())
}

/// How many calls a writer answers, and whether it took three bytes then.
const WRITERS: [(u8, bool); 2] = [(3, true), (2, false)];

fn writes_until_a_fault() -> bool {
    for (calls, whole) in &WRITERS {
        if write_bytes(&mut Interrupted { calls: *calls }, b"bcd").is_ok() != *whole {
            return false;
        }
    }
    true
}

#[test]
fn writing_stops_at_a_fault(rt: HostRuntime) -> Result<(), Fail> {
    let mut into = b"text".to_vec(rt.alloc())?;
    assert!(rt; write_bytes(&mut into, b"bc").is_ok() && into.as_slice() == b"textbc".as_slice());
    assert!(rt; writes_until_a_fault());
    assert!(rt; write_bytes(&mut Full, b"bcd").is_err() && write_bytes(&mut Full, b"").is_ok());
    Ok(())
}
