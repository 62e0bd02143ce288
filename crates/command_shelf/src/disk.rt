//! Files, standard output and standard error.

ghost use Rattle.std.specs.Prelude.{◌≡◌, ◌≤◌, ◌+◌, Err, length};
ghost use Rattle.command_shelf.specs.Shelf.{Begins, HasCause, count_after, most_faults};

use crate::fault::ShelfFault;
use crate::heard::Heard;
use crate::new_file::{LASTS, create, fill, read_front, write_to};
use crate::place::{Place, Target, Way, way_of};
use crate::replaceable::{FRONT, LEFT, is_replaceable};
use crate::shelf::Shelf;
use crate::stream::read_bytes;
use std::fs::Metadata;
use std::io::ErrorKind;
use std::marker::Model;
use std::os::unix::fs::PermissionsExt;
use std::rt::Files;
use std::{fs, io};

/// What notes call the standard output.
const OUTPUT: &str = "standard output";

/// The system's number of the error that a descriptor is not open.
const NOT_OPEN: i32 = 9;

/// What is noted of a file that nobody may write.
const READ_ONLY: &str = "the file is read-only, and was left alone";

/// What is noted of a link to what is not there.
const NOWHERE: &str = "the link leads nowhere";

/// What is noted of a new file in a folder that is not there.
const NO_FOLDER: &str = "no such folder";

// Returns who may read, write and run a file, as the last twelve bits.
fn mode_of(found: &Metadata) -> u32 {
    found.permissions().mode() & 0o7777
}

/// The files of a runtime by their paths, its standard output, and its standard error for notes.
///
/// Contracts see a value as its count of faults: it tells neither what the files hold nor what
/// was said. Every error of the system is a fault, an interrupted call among them, and so is a
/// write that takes nothing.
///
/// What is stored under a free name or over a regular file is written to a new file beside it, and renamed
/// once the disk has all bytes: NAME`.new`, or where that stands the first of NAME`.new1` to NAME`.new9` that
/// does not. None that stands is written to or removed. The new file gets the mode of the old one; a file
/// that nobody may write is refused. A link to a regular file stays, and the file that it leads to is
/// replaced so; one that leads nowhere is refused. Devices and pipes are written as they are, and so is what
/// a link leads to by way of `/proc`.
#[derive(Drop)]
pub struct DiskShelf<R: Files + Print + Eprint + AllocGlobal + Drop> {
    rt: R,
    faults: u64,
}

impl<R: Files + Print + Eprint + AllocGlobal + Drop> Model for DiskShelf<R> {
    ghost use Rattle.std.specs.Prelude.{ℕ, ◌≤◌};
    ghost use Rattle.command_shelf.specs.Shelf.{most_faults};

    ghost Value = { ℕ };

    ghost view = { λ s. s.faults };

    ghost invariant = { λ s. s.faults ≤ most_faults };
}

impl<R: Files + Print + Eprint + AllocGlobal + Drop> DiskShelf<R> {
    /// Returns the shelf of the runtime, with no fault yet.
    pub fn new(rt: R) -> DiskShelf<R>
        ensures { result ≡ 0 }
    {
        DiskShelf { rt, faults: 0 }
    }

    // Notes why the system refused a call.
    fn note_refusal(&self, what: &str, why: io::Error) {
        let rt = &self.rt;
        let _ = if why.raw_os_error() == Some(NOT_OPEN) {
            eprintln!(rt; "{what}: not open")
        } else if why.kind() == ErrorKind::NotFound {
            eprintln!(rt; "{what}: no such file")
        } else if why.kind() == ErrorKind::Uncategorized {
            eprintln!(rt; "{what}: {why}")
        } else {
            eprintln!(rt; "{what}: {}", why.kind())
        };
    }

    // Notes why the system refused a call, and returns that it did.
    fn refused(&self, what: &str, why: ErrorKind) -> Result<(), ShelfFault>
        ensures { result ≡ Err ShelfFault.Failed }
    {
        self.note_refusal(what, io::Error::from(why));
        Err(ShelfFault::Failed)
    }

    // Returns the fault of an error; it is noted but for want of memory.
    fn fault(&self, what: &str, why: io::Error) -> ShelfFault {
        if why.kind() == ErrorKind::OutOfMemory {
            return ShelfFault::Memory;
        }
        self.note_refusal(what, why);
        ShelfFault::Failed
    }

    // Notes why a name is left alone.
    fn left(&self, name: &str, why: &str) -> ShelfFault {
        let rt = &self.rt;
        let _ = eprintln!(rt; "{name}: {why}");
        ShelfFault::Failed
    }

    // Reads the first bytes of an open file, up to one above a limit.
    fn read_file(
        &self,
        name: &str,
        file: &mut R::File,
        most: usize,
        into: &mut Vec<u8>,
    ) -> Result<(), ShelfFault>
        ensures begins { Begins into.old.items into.new.items }
        ensures limit { length into.new.items ≤ length into.old.items + (most + 1) }
    {
        let mut heard = Heard::new(file);
        match read_bytes(&mut heard, most.saturating_add(1), into) {
            Err(ShelfFault::Failed) => self.refused(name, heard.error()),
            outcome => outcome,
        }
    }

    // Asks whether a regular file may be stored over, by its first bytes.
    fn ask_front(&self, name: &str) -> Result<(), ShelfFault> {
        let mut front = [0_u8; FRONT];
        let read = match fs::open(&self.rt, name) {
            Ok(mut file) => read_front(&mut file, &mut front),
            Err(error) => Err(error),
        };
        match read {
            Ok(count) if is_replaceable(front.get(..count).unwrap_or(&front)) => Ok(()),
            Ok(_) => Err(self.left(name, LEFT)),
            Err(error) => Err(self.fault(name, error)),
        }
    }

    // Asks whether what was found under a name may be stored over. A device or a pipe holds no text.
    fn ask_found(&self, name: &str, found: &Metadata) -> Result<(), ShelfFault> {
        if found.is_dir() {
            return Err(self.fault(name, io::Error::from(ErrorKind::IsADirectory)));
        }
        if !found.is_file() {
            return Ok(());
        }
        if found.permissions().readonly() {
            return Err(self.left(name, READ_ONLY));
        }
        self.ask_front(name)
    }

    // Returns the place beside a path, at which a file of this mode stands, or nothing.
    fn beside(&self, path: &str, mode: Option<u32>) -> Result<Place, ShelfFault> {
        let path = String::from_str(self.rt.alloc(), path)?;
        Ok(Place::Beside(Target { path, mode }))
    }

    // Returns the place of a regular file to which the plain links of a name lead.
    fn behind_links(&self, name: &str, mode: u32) -> Result<Place, ShelfFault> {
        match fs::canonicalize(&self.rt, name) {
            Ok(path) => self.beside(path.as_str(), Some(mode)),
            Err(error) => Err(self.fault(name, error)),
        }
    }

    // Returns where a text goes that is stored under a link.
    fn place_of_link(&self, name: &str) -> Result<Place, ShelfFault> {
        let found = match fs::metadata(&self.rt, name) {
            Ok(found) => found,
            Err(error) if error.kind() == ErrorKind::NotFound => {
                return Err(self.left(name, NOWHERE));
            }
            Err(error) => return Err(self.fault(name, error)),
        };
        self.ask_found(name, &found)?;
        match way_of(&self.rt, name) {
            Ok(Way::Plain) if found.is_file() => self.behind_links(name, mode_of(&found)),
            Ok(Way::Output) => Ok(Place::Output),
            Ok(_) => Ok(Place::Through),
            Err(error) => Err(self.fault(name, error)),
        }
    }

    // Returns where a text goes that is stored under a name, once it was asked whether it may be.
    fn place(&self, name: &str) -> Result<Place, ShelfFault> {
        let found = match fs::symlink_metadata(&self.rt, name) {
            Ok(found) if found.is_symlink() => return self.place_of_link(name),
            Ok(found) => found,
            Err(error) if error.kind() == ErrorKind::NotFound => return self.beside(name, None),
            Err(error) => return Err(self.fault(name, error)),
        };
        self.ask_found(name, &found)?;
        if found.is_file() {
            return self.beside(name, Some(mode_of(&found)));
        }
        Ok(Place::Through)
    }

    // Returns the path of the new file beside a path with this behind `.new`.
    fn new_path(&self, path: &str, last: &str) -> Result<String, ShelfFault> {
        match format!(in self.rt.alloc(); "{path}.new{last}") {
            Ok(new) => Ok(new),
            Err(_) => Err(ShelfFault::Memory),
        }
    }

    // Returns the fault of a new file that could not be made.
    fn not_made(&self, new: &str, why: io::Error) -> ShelfFault {
        if why.kind() == ErrorKind::NotFound {
            return self.left(new, NO_FOLDER);
        }
        self.fault(new, why)
    }

    // Makes the first new file beside a path that does not stand. Returns it, its path, and what is behind
    // `.new` in the last one that stands.
    fn make_new(
        &self,
        target: &Target,
    ) -> Result<(R::File, String, Option<&'static str>), ShelfFault> {
        let path = target.path.as_str();
        let mut before = None;
        for last in LASTS {
            let new = self.new_path(path, last)?;
            match create(&self.rt, new.as_str(), target.mode) {
                Ok(file) => return Ok((file, new, before)),
                Err(error) if error.kind() == ErrorKind::AlreadyExists => before = Some(last),
                Err(error) => return Err(self.not_made(new.as_str(), error)),
            }
        }
        let rt = &self.rt;
        let _ = eprintln!(rt; "{path}.new to {path}.new9 stand, and were left alone");
        Err(ShelfFault::Failed)
    }

    // Notes which new files beside a path stand, of which the last has this behind `.new`.
    fn note_standing(&self, path: &str, last: &str, new: &str) {
        let rt = &self.rt;
        let _ = if last.is_empty() {
            eprintln!(rt; "{path}.new stands, and is left alone: {new} is written")
        } else {
            eprintln!(rt;
                "{path}.new to {path}.new{last} stand, and are left alone: {new} is written"
            )
        };
    }

    // Makes the new file beside a path, and removes it at once.
    fn probe(&self, target: &Target) -> Result<(), ShelfFault> {
        let (file, new, before) = self.make_new(target)?;
        drop(file);
        if let Err(error) = fs::remove_file(&self.rt, new.as_str()) {
            return Err(self.fault(new.as_str(), error));
        }
        if let Some(last) = before {
            self.note_standing(target.path.as_str(), last, new.as_str());
        }
        Ok(())
    }

    // Takes a new file away again, and returns the fault of what refused it.
    fn take_away(&self, new: &str, name: &str, why: io::Error) -> ShelfFault {
        let _ = fs::remove_file(&self.rt, new);
        self.fault(name, why)
    }

    // Stores by way of a new file, so that what the path held stays whole until the disk has all bytes.
    fn replace(&self, target: &Target, bytes: &[u8]) -> Result<(), ShelfFault> {
        let (file, new, _) = self.make_new(target)?;
        let new = new.as_str();
        if let Err(error) = fill(file, target.mode, bytes) {
            return Err(self.take_away(new, new, error));
        }
        let path = target.path.as_str();
        match fs::rename(&self.rt, new, path) {
            Ok(()) => Ok(()),
            Err(error) => Err(self.take_away(new, path, error)),
        }
    }

    // Writes to a device or to a pipe.
    fn write_through(&self, name: &str, bytes: &[u8]) -> Result<(), ShelfFault> {
        let written = match fs::create(&self.rt, name) {
            Ok(mut file) => write_to(&mut file, bytes),
            Err(error) => Err(error),
        };
        match written {
            Ok(()) => Ok(()),
            Err(error) => Err(self.fault(name, error)),
        }
    }

    // Writes to standard output.
    fn write_output(&self, bytes: &[u8]) -> Result<(), ShelfFault> {
        match write_to(&mut io::writer(&self.rt), bytes) {
            Ok(()) => Ok(()),
            Err(error) => Err(self.fault(OUTPUT, error)),
        }
    }

    // Asks whether a text may be stored under a name, and the new file be made where there is to be one.
    fn ask(&self, name: &str) -> Result<(), ShelfFault> {
        match self.place(name)? {
            Place::Beside(target) => self.probe(&target),
            Place::Through | Place::Output => Ok(()),
        }
    }

    // Stores under a name, where that may be done.
    fn store_text(&self, name: &str, bytes: &[u8]) -> Result<(), ShelfFault> {
        match self.place(name)? {
            Place::Beside(target) => self.replace(&target, bytes),
            Place::Through => self.write_through(name, bytes),
            Place::Output => self.write_output(bytes),
        }
    }

    // Counts a fault, and passes the outcome on.
    fn counted(&mut self, outcome: Result<(), ShelfFault>) -> Result<(), ShelfFault>
        ensures same { result ≡ outcome }
        ensures counted { self.new ≡ count_after outcome self.old }
        ensures cause { HasCause self.old self.new result }
        ensures bounded { self.new ≤ most_faults }
    {
        if let Err(ShelfFault::Failed) = outcome {
            self.faults = self.faults.saturating_add(1);
        }
        outcome
    }
}

impl<R: Files + Print + Eprint + AllocGlobal + Drop> Shelf for DiskShelf<R> {
    ghost use Rattle.std.specs.Prelude.{None, false};
    ghost use Rattle.std.proofs.Common.{rules};

    ghost told = { λ s. record { held = None; said = None; faults = s; steady = false } };

    ghost tells = { λ _ steady. Prim.search rules };

    // Opens the file, and reads its first bytes.
    fn fetch(&mut self, name: &str, most: usize, into: &mut Vec<u8>) -> Result<(), ShelfFault>
        ensures begins { Begins into.old.items into.new.items }
        ensures limit { length into.new.items ≤ length into.old.items + (most + 1) }
        ensures counted { self.new ≡ count_after result self.old }
        ensures cause { HasCause self.old self.new result }
        ensures bounded { self.new ≤ most_faults }
    {
        let outcome = match fs::open(&self.rt, name) {
            Ok(mut file) => self.read_file(name, &mut file, most, into),
            Err(error) => self.refused(name, error.kind()),
        };
        self.counted(outcome)
    }

    // Asks what stands under the name, and makes the new file beside it and removes it at once, so that a
    // folder without rights and a name that is too long are refused. A process that ends between the two
    // leaves an empty new file.
    fn may_store(&mut self, name: &str) -> Result<(), ShelfFault>
        ensures counted { self.new ≡ count_after result self.old }
        ensures cause { HasCause self.old self.new result }
        ensures bounded { self.new ≤ most_faults }
    {
        let outcome = self.ask(name);
        self.counted(outcome)
    }

    // Stores by a new file that is renamed, where the name is free or leads to a regular file.
    fn store(&mut self, name: &str, bytes: &[u8]) -> Result<(), ShelfFault>
        ensures counted { self.new ≡ count_after result self.old }
        ensures cause { HasCause self.old self.new result }
        ensures bounded { self.new ≤ most_faults }
    {
        let outcome = self.store_text(name, bytes);
        self.counted(outcome)
    }

    // Writes the bytes to standard output.
    fn say(&mut self, bytes: &[u8]) -> Result<(), ShelfFault>
        ensures counted { self.new ≡ count_after result self.old }
        ensures cause { HasCause self.old self.new result }
        ensures bounded { self.new ≤ most_faults }
    {
        let outcome = self.write_output(bytes);
        self.counted(outcome)
    }

    // Writes the text to standard error.
    fn note(&mut self, text: &str)
        ensures { self.new ≡ self.old }
    {
        let rt = &self.rt;
        let _ = eprintln!(rt; "{text}");
    }
}
