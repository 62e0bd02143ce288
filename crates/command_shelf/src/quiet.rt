//! The shelf in memory that refuses nothing but the fetch of an absent name.

ghost use Rattle.std.specs.Prelude.{◌≡◌, ◌≤◌, [], ◌+◌, ◌++◌, length, Err, None, false, IsSome, IsTrue, OnOk, OnErr};
ghost use Rattle.std.specs.Option.{option_copied};
ghost use Rattle.std.specs.FinMap as fin;
ghost use Rattle.command_shelf.specs.Shelf.{AgreesElsewhere, Fetched, HasCause, front_to, one_more, most_faults};
ghost use Rattle.command_shelf.specs.Stores.{may_store};

use crate::fault::ShelfFault;
use crate::shelf::Shelf;
use crate::texts::TextMap;
use model_rosters::Memory;
use std::alloc::Global;
use std::marker::Model;

/// A shelf in memory that refuses nothing but the fetch of an absent name and the store over a text that is
/// no certificate. It keeps no notes.
#[derive(Drop)]
pub struct QuietShelf {
    held: TextMap,
    said: Vec<u8>,
    faults: u64,
}

impl Model for QuietShelf {
    ghost use Rattle.command_shelf.specs.Memory.{QuietState, quiet_code};
    ghost use Rattle.command_shelf.specs.Shelf.{most_faults};
    ghost use Rattle.std.specs.Prelude.{◌≤◌};

    ghost Value = { QuietState };

    ghost coded = { quiet_code };

    ghost view = { λ s. record { held = s.held; said = s.said.items; faults = s.faults } };

    ghost invariant = { λ s. s.faults ≤ most_faults };
}

impl QuietShelf {
    /// Returns a shelf that holds nothing and has said nothing. It takes no memory yet.
    pub fn new(alloc: Global) -> QuietShelf
        ensures { result ≡ record { held = fin.empty; said = []; faults = 0 } }
    {
        QuietShelf {
            held: TextMap::new(alloc),
            said: Vec::new(alloc),
            faults: 0,
        }
    }

    /// Makes the name hold the bytes.
    ///
    /// # Errors
    ///
    /// `Memory` where memory runs out; the shelf is as before then.
    pub fn put(&mut self, name: &str, bytes: &[u8]) -> Result<(), Memory>
        ensures ok { OnOk result (self.new ≡ record self.old {
          held = fin.insert self.old.held name.now bytes.now;
        }) }
        ensures err { OnErr result (self.new ≡ self.old) }
    {
        self.held.put(name, bytes)?;
        Ok(())
    }

    /// Returns the bytes under the name.
    pub fn text(&self, name: &str) -> Option<&[u8]>
        ensures { option_copied result ≡ fin.get self.now.held name.now }
    {
        self.held.text(name)
    }

    /// Returns all that was said.
    pub fn said(&self) -> &[u8]
        ensures { result.now ≡ self.now.said }
    {
        self.said.as_slice()
    }

    /// Returns how many calls were refused.
    pub fn faults(&self) -> u64
        ensures { result ≡ self.now.faults }
    {
        self.faults
    }

    /// Counts a refused call, and returns its fault.
    pub(crate) fn refuse(&mut self) -> ShelfFault
        ensures fault { result ≡ ShelfFault.Failed }
        ensures counted { self.new ≡ record self.old { faults = one_more self.old.faults } }
        ensures never_falls { self.old.faults ≤ self.new.faults }
        ensures bounded { self.new.faults ≤ most_faults }
    {
        self.faults = self.faults.saturating_add(1);
        ShelfFault::Failed
    }
}

// Returns the first bytes of a text, up to one above a limit.
#[tactic(auto, using(crate::proofs::Fronts::front_whole))]
fn front_to(text: &[u8], most: usize) -> &[u8]
    ensures front { result.now ≡ front_to most text.now }
    ensures few { length result.now ≤ most + 1 }
{
    if most < text.len() {
        return &text[..most + 1];
    }
    text
}

impl Shelf for QuietShelf {
    ghost use Rattle.std.specs.Prelude.{Some, true, refl};

    ghost told = { λ s. record { held = Some s.held; said = Some s.said; faults = s.faults; steady = true } };

    ghost tells = { λ _ _. (refl, refl) };

    // Appends the first bytes under the name, or refuses an absent one.
    fn fetch(&mut self, name: &str, most: usize, into: &mut Vec<u8>) -> Result<(), ShelfFault>
        ensures ok { OnOk result ((self.new ≡ self.old)
            × Fetched self.old.held name.now most into.old.items into.new.items) }
        ensures limit { length into.new.items ≤ length into.old.items + (most + 1) }
        ensures failed { result ≡ Err ShelfFault.Failed → (fin.get self.old.held name.now ≡ None)
            × (self.new ≡ record self.old { faults = one_more self.old.faults })
            × (into.new.items ≡ into.old.items) }
        ensures memory { result ≡ Err ShelfFault.Memory → IsSome (fin.get self.old.held name.now)
            × (self.new ≡ self.old) × (into.new.items ≡ into.old.items) }
        ensures cause { HasCause self.old.faults self.new.faults result }
        ensures bounded { self.new.faults ≤ most_faults }
    {
        let Some(bytes) = self.held.text(name) else {
            return Err(self.refuse());
        };
        into.extend_from_slice(front_to(bytes, most))?;
        Ok(())
    }

    // Asks the texts held.
    fn may_store(&mut self, name: &str) -> Result<(), ShelfFault>
        ensures ok { OnOk result (IsTrue (may_store self.old.held name.now) × (self.new ≡ self.old)) }
        ensures err { OnErr result ((result ≡ Err ShelfFault.Failed)
            × (may_store self.old.held name.now ≡ false)
            × (self.new ≡ record self.old { faults = one_more self.old.faults })) }
        ensures cause { HasCause self.old.faults self.new.faults result }
        ensures bounded { self.new.faults ≤ most_faults }
    {
        if self.held.may_store(name) {
            return Ok(());
        }
        Err(self.refuse())
    }

    // Stores among the texts held.
    fn store(&mut self, name: &str, bytes: &[u8]) -> Result<(), ShelfFault>
        ensures ok { OnOk result (IsTrue (may_store self.old.held name.now) × (self.new ≡ record self.old {
          held = fin.insert self.old.held name.now bytes.now;
        })) }
        ensures failed { result ≡ Err ShelfFault.Failed → (may_store self.old.held name.now ≡ false)
            × (self.new ≡ record self.old { faults = one_more self.old.faults }) }
        ensures memory { result ≡ Err ShelfFault.Memory → IsTrue (may_store self.old.held name.now)
            × (self.new ≡ self.old) }
        ensures others { AgreesElsewhere name.now self.old.held self.new.held }
        ensures cause { HasCause self.old.faults self.new.faults result }
        ensures bounded { self.new.faults ≤ most_faults }
    {
        if !self.held.may_store(name) {
            return Err(self.refuse());
        }
        self.held.put(name, bytes)?;
        Ok(())
    }

    // Appends the bytes to what was said.
    fn say(&mut self, bytes: &[u8]) -> Result<(), ShelfFault>
        ensures ok { OnOk result (self.new ≡ record self.old { said = self.old.said ++ bytes.now }) }
        ensures err { OnErr result ((result ≡ Err ShelfFault.Memory) × (self.new ≡ self.old)) }
        ensures bounded { self.new.faults ≤ most_faults }
    {
        self.said.extend_from_slice(bytes)?;
        Ok(())
    }

    // Drops the note.
    fn note(&mut self, _text: &str)
        ensures { self.new ≡ self.old }
    {}
}
