//! The letters that have slots.

ghost use Rattle.tree_cheapest.specs.Numbering.{AreNumbered};

use crate::slots::Spot;
use model_rosters::{List, Memory};
use std::alloc::Global;
use tree_graph::Kid;

// How many letters the numbers of one byte can name.
const LETTERS: usize = 65536;

/// The letters that have slots. Their slots follow those of the nodes and that of nothing.
#[derive(Drop)]
pub struct Letters {
    /// The letters by their numbers from 0.
    pub list: List<Spot>,
    // The number of each letter plus 1, by its code and period; 0 where it has none yet.
    numbers: Vec<u32>,
    ghost known: { AreNumbered list numbers.items },
}

impl Letters {
    ghost use Rattle.std.specs.Prelude.{◌≡◌, ◌≤◌, ◌^◌, IfOk, OnOk, Some, length, slice_get};
    ghost use Rattle.tree_cheapest.specs.Numbering.{Grows};
    ghost use Rattle.tree_cheapest.specs.Links.{IsSlot};

    /// Returns no letters.
    ///
    /// # Errors
    ///
    /// `Memory` where memory runs out; nothing is kept then.
    pub fn new(alloc: Global) -> Result<Letters, Memory>
        ensures { IfOk result (λ s. length s.list ≡ 0) }
    {
        let numbers = vec![in alloc; 0; LETTERS]?;
        Ok(Letters {
            list: List::new(alloc),
            numbers,
        })
    }

    // The number of a letter, a new one where it has none yet.
    fn number(&mut self, code: u8, period: u8) -> Result<u32, Memory>
        requires { length self.old.list ≤ 2 ^ 31 }
        ensures number { IfOk result (λ j. slice_get self.new.list j ≡ Some
            (record { code = code; period = period })) }
        ensures grows { OnOk result (Grows self.old.list self.new.list) }
        ensures fits { IfOk result (λ j. j ≤ 2 ^ 31) }
    {
        let place = code as usize * 256 + period as usize;
        let known = self.numbers[place];
        if known > 0 {
            return Ok(known - 1);
        }
        let number = self.list.len() as u32;
        self.list.push(Spot { code, period })?;
        self.numbers[place] = number + 1;
        Ok(number)
    }

    /// Returns the slot of what is below an arc, where there are so many nodes. A letter that has no
    /// slot yet gets the next one.
    ///
    /// # Errors
    ///
    /// `Memory` where memory runs out; nothing is said of the letters then.
    pub fn slot(&mut self, kid: Kid, nodes: u32) -> Result<u32, Memory>
        requires few { length self.old.list ≤ 2 ^ 31 }
        requires nodes { nodes ≤ 100000 }
        ensures slot { IfOk result (IsSlot nodes self.new.list kid) }
        ensures grows { OnOk result (Grows self.old.list self.new.list) }
    {
        match kid {
            Kid::Nothing => Ok(nodes),
            Kid::Node(node) => Ok(node),
            Kid::Letter { code, period } => {
                let number = self.number(code, period)?;
                Ok(nodes + 1 + number)
            }
        }
    }

    /// Returns the letters by their numbers.
    pub fn into_list(self) -> List<Spot>
        ensures { result ≡ self.list }
    {
        let Letters { list, .. } = self;
        list
    }
}
