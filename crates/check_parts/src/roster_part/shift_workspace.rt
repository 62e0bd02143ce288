//! The room for stated shifts.

ghost use Rattle.std.specs.Prelude.{◌≡◌, ◌≤◌, ◌<◌, [], ◌∷◌, ◌++◌, All, IfOk, length};

use crate::roster_part::stated::StatedShift;
use model_rosters::{Memory, Shift};
use std::alloc::Global;
use std::marker::Model;

/// How many shifts a certificate has at most.
const MOST_SHIFTS: usize = 64;

/// Room for the stated shifts of one certificate after another: 64 of them, with words of at most 96
/// bytes. A contract sees the list of the shifts that it holds.
#[derive(Drop)]
pub struct ShiftWorkspace {
    slots: Vec<StatedShift>,
    // How many of the slots are in use, from the first on.
    used: usize,
}

impl Model for ShiftWorkspace {
    ghost use Rattle.std.specs.Prelude.{◌≡◌, ◌≤◌, List, length, take};
    ghost use Rattle.model_rosters.specs.declared.instance.Shift.{Shift};

    ghost Value = { List Shift };

    ghost view = { λ r. take r.used r.slots.items };

    ghost invariant = { λ r. (length r.slots.items ≡ 64) × (r.used ≤ 64) };
}

// Takes the memory of the slots.
fn empty_slots(alloc: Global) -> Result<Vec<StatedShift>, Memory>
    ensures { IfOk result (λ v. length v.items ≡ 64) }
{
    let mut slots = Vec::with_capacity(alloc, MOST_SHIFTS)?;
    while slots.len() < MOST_SHIFTS {
        let slot = StatedShift::new(alloc)?;
        slots.push(slot)?;
    }
    Ok(slots)
}

impl ShiftWorkspace {
    /// Returns a room that holds no shift. It takes all its memory here.
    ///
    /// # Errors
    ///
    /// `Memory` where memory runs out; nothing is kept then.
    pub fn new(alloc: Global) -> Result<ShiftWorkspace, Memory>
        ensures { IfOk result (λ r. r ≡ []) }
    {
        Ok(ShiftWorkspace {
            slots: empty_slots(alloc)?,
            used: 0,
        })
    }

    /// Holds no shift any more. Its memory stays.
    pub fn clear(&mut self)
        ensures { self.new ≡ [] }
    {
        self.used = 0;
    }

    /// Returns the shifts that the room holds.
    pub fn shifts(&self) -> &[StatedShift]
        ensures { result.now ≡ self.now }
    {
        &self.slots[..self.used]
    }

    /// Adds a shift. Takes no memory.
    pub fn keep(&mut self, group: u8, word: &[u8], price: u64)
        requires room { length self.old < 64 }
        requires short { length word.now ≤ 96 }
        ensures { self.new ≡ self.old ++ (record { group = group; word = word.now; price = price }) ∷ [] }
    {
        self.slots[self.used].state(group, word, price);
        self.used += 1;
    }

    /// Holds these shifts in place of those before. Takes no memory.
    pub fn keep_all(&mut self, shifts: &[Shift])
        requires few { length shifts.now ≤ 64 }
        requires short { All (λ s. length s.word ≤ 96) shifts.now }
        ensures { self.new ≡ shifts.now }
    {
        self.clear();
        for shift in shifts {
            self.keep(shift.group, shift.word.as_slice(), shift.price);
        }
    }
}
