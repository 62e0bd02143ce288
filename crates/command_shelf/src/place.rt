//! Where a text goes that is stored under a name.

use std::io::ErrorKind;
use std::path::{Path, PathBuf};
use std::rt::Files;
use std::{fs, io};

/// How many links are followed at most, as many as the system follows.
const MOST_LINKS: u32 = 40;

/// The names that lead to standard output.
const OUTPUTS: [&str; 3] = ["/dev/stdout", "/dev/fd/1", "/proc/self/fd/1"];

/// A path beside which a new file is made, to be given the path's name.
#[derive(Drop)]
pub(crate) struct Target {
    /// The path, which is no link.
    pub(crate) path: String,
    /// The mode of the regular file that stands there, where one does.
    pub(crate) mode: Option<u32>,
}

/// Where a text goes that is stored under a name.
#[derive(Drop)]
pub(crate) enum Place {
    /// To a new file, which replaces what stands at its path.
    Beside(Target),
    /// To a device, to a pipe, or to what an entry of `/proc` leads to: it is written as it is.
    Through,
    /// To standard output, where what is said goes as well.
    Output,
}

/// By way of what the links of a name lead.
#[derive(Clone, Copy, Drop)]
pub(crate) enum Way {
    /// By way of files and folders alone.
    Plain,
    /// By way of an entry of `/proc`.
    Proc,
    /// To standard output.
    Output,
}

// Returns the folder of a path, without links.
fn folder<R: Files + AllocGlobal>(rt: &R, path: &str) -> io::Result<PathBuf> {
    match Path::new(path).parent() {
        Some(folder) if !folder.as_str().is_empty() => fs::canonicalize(rt, folder.as_str()),
        _ => fs::canonicalize(rt, "."),
    }
}

// Returns by way of what a path leads by itself.
fn own_way(path: &str, folder: &PathBuf) -> Way {
    if OUTPUTS.contains(&path) {
        return Way::Output;
    }
    if folder.as_path().starts_with("/proc") {
        return Way::Proc;
    }
    Way::Plain
}

/// Follows the links of a name one by one, and returns by way of what they lead. The path that an entry of
/// `/proc` tells need not be the file that it leads to, so it ends there.
///
/// # Errors
///
/// What the system refuses, `FilesystemLoop` after 40 links, and `OutOfMemory` for want of memory.
pub(crate) fn way_of<R: Files + AllocGlobal>(rt: &R, name: &str) -> io::Result<Way> {
    let mut path = PathBuf::from_str(rt.alloc(), name)?;
    for _ in 0..MOST_LINKS {
        let folder = folder(rt, path.as_str())?;
        match own_way(path.as_str(), &folder) {
            Way::Plain => {}
            found => return Ok(found),
        }
        if !fs::symlink_metadata(rt, path.as_str())?.is_symlink() {
            return Ok(Way::Plain);
        }
        let next = fs::read_link(rt, path.as_str())?;
        path = folder.as_path().join(rt.alloc(), next.as_str())?;
    }
    Err(io::Error::from(ErrorKind::FilesystemLoop))
}
