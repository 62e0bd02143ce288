//! A stated shift.

ghost use Rattle.std.specs.Prelude.{◌≡◌, ◌≤◌, [], IfOk, length};

use model_rosters::Memory;
use std::alloc::Global;
use std::marker::Model;

/// How many bytes a word has at most.
const MOST_BYTES: usize = 96;

/// A stated shift, in memory for a word of 96 bytes that serves one shift after another. A contract
/// sees the shift.
#[derive(Drop)]
pub struct StatedShift {
    group: u8,
    word: Vec<u8>,
    price: u64,
}

impl Model for StatedShift {
    ghost use Rattle.std.specs.Prelude.{◌≤◌, vec_capacity};
    ghost use Rattle.model_rosters.specs.declared.instance.Shift.{Shift};

    ghost Value = { Shift };

    ghost view = { λ s. record { group = s.group; word = s.word.items; price = s.price } };

    ghost invariant = { λ s. 96 ≤ vec_capacity s.word };
}

impl StatedShift {
    /// Returns a shift with an empty word. It takes all its memory here.
    ///
    /// # Errors
    ///
    /// `Memory` where memory runs out; nothing is kept then.
    pub(crate) fn new(alloc: Global) -> Result<StatedShift, Memory>
        ensures { IfOk result (λ s. s ≡ record { group = 0; word = []; price = 0 }) }
    {
        let word = Vec::with_capacity(alloc, MOST_BYTES)?;
        Ok(StatedShift {
            group: 0,
            word,
            price: 0,
        })
    }

    /// States another shift. Takes no memory.
    pub(crate) fn state(&mut self, group: u8, word: &[u8], price: u64)
        requires short { length word.now ≤ 96 }
        ensures { self.new ≡ record { group = group; word = word.now; price = price } }
    {
        self.group = group;
        self.price = price;
        self.word.clear();
        let _ = self.word.extend_from_slice(word);
    }

    /// Returns the number of the employee's group, from 1, or 0 on a day without groups.
    pub fn group(&self) -> u8
        ensures { result ≡ self.now.group }
    {
        self.group
    }

    /// Returns the byte of each period's code.
    pub fn word(&self) -> &[u8]
        ensures { result.now ≡ self.now.word }
    {
        self.word.as_slice()
    }

    /// Returns the stated least cost of a tree of the word.
    pub fn price(&self) -> u64
        ensures { result ≡ self.now.price }
    {
        self.price
    }
}
