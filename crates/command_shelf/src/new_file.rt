//! A new file, made, filled and closed, and the first bytes of an old one.

use crate::heard::Heard;
use crate::stream::write_bytes;
use std::fs::{OpenFile, OpenOptions, Permissions};
use std::io;
use std::io::{Read, Write};
use std::os::unix::fs::{OpenOptionsExt, PermissionsExt};
use std::rt::Files;

/// What is tried behind `.new` in turn.
pub(crate) const LASTS: [&str; 10] = ["", "1", "2", "3", "4", "5", "6", "7", "8", "9"];

/// The mode of a new file where none stood: the system takes the bits of the process' mask off.
const FREE_MODE: u32 = 0o666;

/// Makes a file that is not there yet. The system takes the bits of the process' mask off the mode.
///
/// # Errors
///
/// What the system refuses: `AlreadyExists` where something stands there, were it a link that leads nowhere.
pub(crate) fn create<R: Files>(rt: &R, path: &str, mode: Option<u32>) -> io::Result<R::File> {
    let mut how = OpenOptions::new();
    how.write(true).create_new(true);
    how.mode(mode.unwrap_or(FREE_MODE));
    how.open(rt, path)
}

/// Writes all of the bytes to a stream.
///
/// # Errors
///
/// The first error of the stream.
pub(crate) fn write_to<W: Write>(stream: &mut W, bytes: &[u8]) -> io::Result<()> {
    let mut heard = Heard::new(stream);
    match write_bytes(&mut heard, bytes) {
        Ok(()) => Ok(()),
        Err(_) => Err(heard.cause()),
    }
}

/// Gives a new file its mode and its bytes, waits until the disk has them, and closes it. Where the mode is
/// refused, as on disks without modes, the file has no more rights than it was created with.
///
/// # Errors
///
/// What the system refuses; a first part of the bytes may be written.
pub(crate) fn fill<F: Write + OpenFile + Drop>(
    mut file: F,
    mode: Option<u32>,
    bytes: &[u8],
) -> io::Result<()> {
    if let Some(mode) = mode {
        let _ = file.set_permissions(Permissions::from_mode(mode));
    }
    write_to(&mut file, bytes)?;
    file.sync_all()
}

/// Reads the first bytes of a file until the buffer is full or the file ends, and returns how many they are.
///
/// # Errors
///
/// What the system refuses.
pub(crate) fn read_front<F: Read>(file: &mut F, front: &mut [u8]) -> io::Result<usize> {
    let mut count = 0_usize;
    for _ in 0..front.len() {
        let Some(rest) = front.get_mut(count..) else {
            break;
        };
        let read = file.read(rest)?;
        if read == 0 {
            break;
        }
        count = count.saturating_add(read);
    }
    Ok(count)
}
