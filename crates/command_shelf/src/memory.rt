//! The shelf in memory that refuses listed calls.

ghost use Rattle.std.specs.Prelude.{◌≡◌, ◌≤◌, ◌⊎◌, ◌+◌, ◌/◌, [], ◌++◌, length, take, Err, None, false, IsSome, IsTrue, OnOk, OnErr, nat_eq};
ghost use Rattle.std.specs.List.{list_any};
ghost use Rattle.std.specs.Option.{option_copied};
ghost use Rattle.std.specs.FinMap as fin;
ghost use Rattle.command_shelf.specs.Shelf.{AgreesElsewhere, Begins, Fetched, HasCause, SaidPart, most_faults, one_more};
ghost use Rattle.command_shelf.specs.Stores.{may_store};
ghost use Rattle.command_shelf.specs.Memory.{called, is_steady, next_fails, refused};

use crate::fault::ShelfFault;
use crate::quiet::QuietShelf;
use crate::replaceable::LEFT;
use crate::shelf::Shelf;
use model_rosters::Memory;
use std::alloc::Global;
use std::marker::Model;

/// A shelf in memory that also refuses the calls with the listed numbers.
///
/// The calls of `fetch`, `store` and `say` count from 1; those of `may_store` have no number. It keeps its
/// notes, of which contracts see nothing.
#[derive(Drop)]
pub struct MemoryShelf {
    alloc: Global,
    shelf: QuietShelf,
    failing: Vec<u32>,
    calls: u64,
    notes: Vec<u8>,
}

impl Model for MemoryShelf {
    ghost use Rattle.command_shelf.specs.Memory.{MemoryState, memory_code};

    ghost Value = { MemoryState };

    ghost coded = { memory_code };

    ghost view = { λ s. record {
      held = s.shelf.held;
      said = s.shelf.said;
      faults = s.shelf.faults;
      calls = s.calls;
      failing = s.failing.items;
    } };
}

impl MemoryShelf {
    /// Returns a shelf that holds nothing, has said nothing and will refuse the calls with these
    /// numbers. It takes no memory yet.
    pub fn new(alloc: Global, failing: Vec<u32>) -> MemoryShelf
        ensures { result ≡ record {
          held = fin.empty;
          said = [];
          faults = 0;
          calls = 0;
          failing = failing.items;
        } }
    {
        MemoryShelf {
            alloc,
            shelf: QuietShelf::new(alloc),
            failing,
            calls: 0,
            notes: Vec::new(alloc),
        }
    }

    /// Makes the name hold the bytes. It counts as no call.
    ///
    /// # Errors
    ///
    /// `Memory` where memory runs out; the shelf is as before then.
    pub fn put(&mut self, name: &str, bytes: &[u8]) -> Result<(), Memory>
        ensures ok { OnOk result (self.new ≡ record self.old {
          held = fin.insert self.old.held name.now bytes.now;
        }) }
        ensures err { OnErr result (self.new ≡ self.old) }
    {
        self.shelf.put(name, bytes)
    }

    /// Returns the bytes under the name.
    pub fn text(&self, name: &str) -> Option<&[u8]>
        ensures { option_copied result ≡ fin.get self.now.held name.now }
    {
        self.shelf.text(name)
    }

    /// Returns all that was said.
    pub fn said(&self) -> &[u8]
        ensures { result.now ≡ self.now.said }
    {
        self.shelf.said()
    }

    /// Returns how many calls were refused.
    pub fn faults(&self) -> u64
        ensures { result ≡ self.now.faults }
    {
        self.shelf.faults()
    }

    /// Returns all notes, each with its line feed.
    pub fn notes(&self) -> &[u8] {
        self.notes.as_slice()
    }

    // Notes why a call was refused.
    fn note_refusal(&mut self, what: &str, why: &str)
        ensures { self.new ≡ self.old }
    {
        if let Ok(line) = format!(in self.alloc; "{what}: {why}") {
            self.note(line.as_str());
        }
    }

    // Notes why a call failed, where it did, and passes the fault on.
    fn noted(&mut self, name: &str, why: &str, fault: ShelfFault) -> ShelfFault
        ensures fault { result ≡ fault }
        ensures same { self.new ≡ self.old }
    {
        if fault == ShelfFault::Failed {
            self.note_refusal(name, why);
        }
        fault
    }

    // Counts a call, and returns whether its number is listed.
    fn next_call_fails(&mut self) -> bool
        ensures listed { result ≡ next_fails self.old }
        ensures counted { self.new ≡ called self.old }
        // No number is listed above those of a steady shelf's calls.
        ensures unlisted { IsTrue (is_steady self.old) → result ≡ false }
        ensures stays_steady { IsTrue (is_steady self.old) → IsTrue (is_steady self.new) }
    {
        let call = u128::from(self.calls) + 1;
        self.calls = self.calls.saturating_add(1);
        is_listed(&self.failing, call)
    }
}

// Returns whether the number is in the list.
fn is_listed(numbers: &[u32], number: u128) -> bool
    ensures { result ≡ list_any (λ n. nat_eq n number) numbers.now }
{
    numbers.iter().any(|n| u128::from(*n) == number)
}

impl Shelf for MemoryShelf {
    ghost use Rattle.std.specs.Prelude.{Some, refl};
    ghost use Rattle.command_shelf.specs.Memory.{is_steady};

    ghost told = { λ s. record {
      held = Some s.held;
      said = Some s.said;
      faults = s.faults;
      steady = is_steady s;
    } };

    ghost tells = { λ _ _. (refl, refl) };

    // Appends the first bytes under the name, or refuses the call where it is to fail.
    fn fetch(&mut self, name: &str, most: usize, into: &mut Vec<u8>) -> Result<(), ShelfFault>
        ensures ok { OnOk result ((next_fails self.old ≡ false) × (self.new ≡ called self.old)
            × Fetched self.old.held name.now most into.old.items into.new.items) }
        ensures limit { length into.new.items ≤ length into.old.items + (most + 1) }
        ensures failed { result ≡ Err ShelfFault.Failed →
            (IsTrue (next_fails self.old) ⊎ (fin.get self.old.held name.now ≡ None))
            × (self.new ≡ refused self.old) × (into.new.items ≡ into.old.items) }
        ensures memory { result ≡ Err ShelfFault.Memory →
            (next_fails self.old ≡ false) × IsSome (fin.get self.old.held name.now)
            × (self.new ≡ called self.old) × (into.new.items ≡ into.old.items) }
        ensures cause { HasCause self.old.faults self.new.faults result }
        ensures bounded { self.new.faults ≤ most_faults }
        ensures stays_steady { IsTrue (is_steady self.old) → IsTrue (is_steady self.new) }
        ensures quiet { IsTrue (is_steady self.old) → IsSome (fin.get self.old.held name.now)
            → self.new.faults ≡ self.old.faults }
    {
        if self.next_call_fails() {
            self.note_refusal(name, "refused");
            return Err(self.shelf.refuse());
        }
        match self.shelf.fetch(name, most, into) {
            Ok(()) => Ok(()),
            Err(fault) => Err(self.noted(name, "no such file", fault)),
        }
    }

    // Asks the texts held; a refusal is noted.
    fn may_store(&mut self, name: &str) -> Result<(), ShelfFault>
        ensures ok { OnOk result (IsTrue (may_store self.old.held name.now) × (self.new ≡ self.old)) }
        ensures err { OnErr result ((result ≡ Err ShelfFault.Failed)
            × (may_store self.old.held name.now ≡ false)
            × (self.new ≡ record self.old { faults = one_more self.old.faults })) }
        ensures cause { HasCause self.old.faults self.new.faults result }
        ensures bounded { self.new.faults ≤ most_faults }
        ensures stays_steady { IsTrue (is_steady self.old) → IsTrue (is_steady self.new) }
    {
        match self.shelf.may_store(name) {
            Ok(()) => Ok(()),
            Err(fault) => Err(self.noted(name, LEFT, fault)),
        }
    }

    // Makes the name hold the bytes, or refuses the call where it is to fail.
    fn store(&mut self, name: &str, bytes: &[u8]) -> Result<(), ShelfFault>
        ensures ok { OnOk result ((next_fails self.old ≡ false) × IsTrue (may_store self.old.held name.now)
            × (self.new ≡ record (called self.old) {
              held = fin.insert self.old.held name.now bytes.now;
            })) }
        ensures failed { result ≡ Err ShelfFault.Failed →
            (IsTrue (next_fails self.old) ⊎ (may_store self.old.held name.now ≡ false))
            × (self.new ≡ refused self.old) }
        ensures memory { result ≡ Err ShelfFault.Memory → (next_fails self.old ≡ false)
            × IsTrue (may_store self.old.held name.now) × (self.new ≡ called self.old) }
        ensures others { AgreesElsewhere name.now self.old.held self.new.held }
        ensures cause { HasCause self.old.faults self.new.faults result }
        ensures bounded { self.new.faults ≤ most_faults }
        ensures stays_steady { IsTrue (is_steady self.old) → IsTrue (is_steady self.new) }
        ensures quiet { IsTrue (is_steady self.old) → IsTrue (may_store self.old.held name.now)
            → self.new.faults ≡ self.old.faults }
    {
        if self.next_call_fails() {
            self.note_refusal(name, "refused");
            return Err(self.shelf.refuse());
        }
        match self.shelf.store(name, bytes) {
            Ok(()) => Ok(()),
            Err(fault) => Err(self.noted(name, LEFT, fault)),
        }
    }

    // Appends the bytes to what was said; a call that is to fail says the front half, and is refused.
    fn say(&mut self, bytes: &[u8]) -> Result<(), ShelfFault>
        ensures ok { OnOk result ((next_fails self.old ≡ false)
            × (self.new ≡ record (called self.old) { said = self.old.said ++ bytes.now })) }
        // A refused piece is said up to its middle.
        ensures failed { result ≡ Err ShelfFault.Failed → IsTrue (next_fails self.old)
            × (self.new ≡ record (refused self.old) {
              said = self.old.said ++ take (length bytes.now / 2) bytes.now;
            }) }
        ensures memory { result ≡ Err ShelfFault.Memory → self.new ≡ called self.old }
        ensures part { SaidPart bytes.now self.old.said self.new.said }
        ensures cause { HasCause self.old.faults self.new.faults result }
        ensures bounded { self.new.faults ≤ most_faults }
        ensures stays_steady { IsTrue (is_steady self.old) → IsTrue (is_steady self.new) }
        ensures quiet { IsTrue (is_steady self.old) → self.new.faults ≡ self.old.faults }
    {
        if self.next_call_fails() {
            self.shelf.say(&bytes[..bytes.len() / 2])?;
            self.note_refusal("standard output", "refused");
            return Err(self.shelf.refuse());
        }
        self.shelf.say(bytes)
    }

    // Keeps the note, where there is memory for it.
    fn note(&mut self, text: &str)
        ensures { self.new ≡ self.old }
    {
        if self.notes.reserve(text.len().saturating_add(1)).is_ok() {
            let _ = self.notes.extend_from_slice(text.as_bytes());
            let _ = self.notes.push(b'\n');
        }
    }
}
