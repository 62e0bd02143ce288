//! Which slots the arcs join.

ghost use Rattle.std.specs.Prelude.{◌≡◌, ◌++◌, ◌∷◌, [], IfOk, OnOk};

use model_rosters::{List, Memory};
use std::alloc::Global;

/// A letter of the day's words at its period.
#[derive(Clone, Copy, Drop)]
pub struct Spot {
    /// The position of the code, from 0.
    pub code: u8,
    /// The period, from 1.
    pub period: u8,
}

/// The slots that the arcs join, by the places of the arcs: one array for each of the three.
#[derive(Drop)]
pub struct Links {
    /// The slot of the node that each arc makes.
    pub made: List<u32>,
    /// The slot of each arc's first part.
    pub first: List<u32>,
    /// The slot of what follows each arc's first part.
    pub rest: List<u32>,
}

// An empty list that has taken the memory for so many slots.
fn with_capacity(alloc: Global, count: usize) -> Result<List<u32>, Memory>
    ensures { IfOk result (λ list. list ≡ []) }
{
    let items = Vec::with_capacity(alloc, count)?;
    Ok(List::from_vec(items))
}

impl Links {
    /// Returns the slots of no arcs, and takes the memory for those of so many.
    ///
    /// # Errors
    ///
    /// `Memory` where memory runs out; nothing is kept then.
    pub fn with_capacity(alloc: Global, count: usize) -> Result<Links, Memory>
        ensures { IfOk result (λ links. links ≡ record { made = []; first = []; rest = [] }) }
    {
        Ok(Links {
            made: with_capacity(alloc, count)?,
            first: with_capacity(alloc, count)?,
            rest: with_capacity(alloc, count)?,
        })
    }

    /// Adds the slots of one more arc.
    ///
    /// # Errors
    ///
    /// `Memory` where memory runs out; only some of them are added then.
    pub fn push(&mut self, made: u32, first: u32, rest: u32) -> Result<(), Memory>
        ensures { OnOk result (self.new ≡ record {
          made = self.old.made ++ made ∷ [];
          first = self.old.first ++ first ∷ [];
          rest = self.old.rest ++ rest ∷ [];
        }) }
    {
        self.made.push(made)?;
        self.first.push(first)?;
        self.rest.push(rest)
    }
}
