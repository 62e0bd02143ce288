//! What the disk does with first lines, links, modes, new files and names.
//!
//! What the disk does with first lines, links, modes, new files that stand, and names beside which none can
//! be made.

use crate::shelf_tests::STORED_OVER;
use command_shelf::{DiskShelf, Shelf, ShelfFault};
use std::fs;
use std::fs::Permissions;
use std::os::unix::fs::{PermissionsExt, symlink};
use std::test::Fail;

const OLD: &[u8] = b"proof 1\nold\n";

const NEW: &[u8] = b"proof 2\nnew\n";

/// Whether a file holds these bytes.
fn holds(rt: &HostRuntime, name: &str, bytes: &[u8]) -> Result<bool, Fail> {
    Ok(fs::read(rt, name)?.as_slice() == bytes)
}

/// Whether the disk takes the new text under a name, when it is asked and when it stores.
fn takes(rt: &HostRuntime, name: &str) -> bool {
    let mut shelf = DiskShelf::new(rt);
    shelf.may_store(name).is_ok() && shelf.store(name, NEW).is_ok()
}

/// Whether the disk refuses the new text under a name, when it is asked and when it is to store.
fn refuses(rt: &HostRuntime, name: &str) -> bool {
    let mut shelf = DiskShelf::new(rt);
    shelf.may_store(name) == Err(ShelfFault::Failed)
        && shelf.store(name, NEW) == Err(ShelfFault::Failed)
}

#[test]
fn the_disk_asks_the_first_line(rt: HostRuntime) -> Result<(), Fail> {
    let name = "disk_front.txt";
    for (text, may) in &STORED_OVER {
        fs::write(&rt, name, text.as_bytes())?;
        let asked = DiskShelf::new(&rt).may_store(name);
        if asked.is_ok() != *may || !holds(&rt, name, text.as_bytes())? {
            return Err(Fail::from(*text));
        }
    }
    fs::remove_file(&rt, name)?;
    Ok(())
}

// The link stays, and the file that it leads to is replaced.
#[test]
fn a_link_to_a_file_is_followed(rt: HostRuntime) -> Result<(), Fail> {
    let (file, link, second) = ("disk_file.txt", "disk_link.txt", "disk_second.txt");
    fs::write(&rt, file, OLD)?;
    symlink(&rt, file, link)?;
    symlink(&rt, link, second)?;
    assert!(rt; takes(&rt, second));
    assert!(rt; holds(&rt, file, NEW)? && fs::symlink_metadata(&rt, second)?.is_symlink());
    for name in [file, link, second] {
        fs::remove_file(&rt, name)?;
    }
    Ok(())
}

#[test]
fn a_link_that_leads_nowhere_is_refused(rt: HostRuntime) -> Result<(), Fail> {
    let link = "disk_dangling.txt";
    symlink(&rt, "disk_nothing.txt", link)?;
    assert!(rt; refuses(&rt, link) && !fs::exists(&rt, "disk_nothing.txt")?);
    fs::remove_file(&rt, link)?;
    Ok(())
}

#[test]
fn a_file_that_nobody_may_write_is_refused(rt: HostRuntime) -> Result<(), Fail> {
    let name = "disk_read_only.txt";
    fs::write(&rt, name, OLD)?;
    fs::set_permissions(&rt, name, Permissions::from_mode(0o444))?;
    assert!(rt; refuses(&rt, name) && holds(&rt, name, OLD)?);
    fs::remove_file(&rt, name)?;
    Ok(())
}

/// Modes that the new file has as the old one had it, whatever the mask of the process.
const MODES: [u32; 3] = [0o600, 0o666, 0o640];

#[test]
fn the_mode_is_kept(rt: HostRuntime) -> Result<(), Fail> {
    let name = "disk_mode.txt";
    for mode in &MODES {
        fs::write(&rt, name, OLD)?;
        fs::set_permissions(&rt, name, Permissions::from_mode(*mode))?;
        assert!(rt; takes(&rt, name) && holds(&rt, name, NEW)?);
        assert!(rt; fs::metadata(&rt, name)?.permissions().mode() & 0o7777 == *mode);
    }
    fs::remove_file(&rt, name)?;
    Ok(())
}

/// The ten new files beside a name, in the order in which they are tried.
const BESIDE: [&str; 10] = [
    "disk_new.txt.new",
    "disk_new.txt.new1",
    "disk_new.txt.new2",
    "disk_new.txt.new3",
    "disk_new.txt.new4",
    "disk_new.txt.new5",
    "disk_new.txt.new6",
    "disk_new.txt.new7",
    "disk_new.txt.new8",
    "disk_new.txt.new9",
];

// Each stands when the name is stored under for the next time; with the last one the name is refused.
#[test]
fn new_files_that_stand_are_left_alone(rt: HostRuntime) -> Result<(), Fail> {
    let name = "disk_new.txt";
    for new in BESIDE {
        assert!(rt; takes(&rt, name) && !fs::exists(&rt, new)?);
        fs::write(&rt, new, b"mine")?;
    }
    fs::write(&rt, name, OLD)?;
    assert!(rt; refuses(&rt, name) && holds(&rt, name, OLD)?);
    for new in BESIDE {
        assert!(rt; holds(&rt, new, b"mine")?);
        fs::remove_file(&rt, new)?;
    }
    fs::remove_file(&rt, name)?;
    Ok(())
}

/// Names under which no new file can be made, or that are no file's.
const NO_FILES: [&str; 3] = ["disk_no_folder/p", ".", "disk_slash/"];

// A name of 253 letters is one letter too long with `.new` behind it.
#[test]
fn a_name_beside_which_nothing_can_be_made_is_refused(rt: HostRuntime) -> Result<(), Fail> {
    let long = "a".repeat(rt.alloc(), 253)?;
    assert!(rt; refuses(&rt, long.as_str()));
    for name in &NO_FILES {
        if !refuses(&rt, name) {
            return Err(Fail::from(*name));
        }
    }
    Ok(())
}
