//! What a pass works in.

use crate::extras::Extras;
use crate::least::{Price, Sum};
use crate::number::Number;
use model_rosters::Memory;
use std::alloc::Global;

// How many codes of rules there are: 0, and 1 plus the number of each.
const CODES: usize = 257;

/// What a pass in numbers of one width works in.
#[derive(Drop)]
pub struct PassWorkspace<N: Number> {
    /// The price of each rule at its number plus 1, and 0 at 0.
    pub rules: Vec<Price<N>>,
    /// What each arc costs.
    pub extras: Extras<N>,
    /// The sum in each slot.
    pub sums: Vec<Sum<N>>,
}

impl<N: Number> PassWorkspace<N> {
    ghost use Rattle.std.specs.Prelude.{IfOk};
    ghost use Rattle.tree_cheapest.specs.Rooms.{IsRoomFor};

    /// Returns room for so many arcs and slots.
    ///
    /// # Errors
    ///
    /// `Memory` where memory runs out; nothing is kept then.
    pub fn new(alloc: Global, arcs: usize, slots: usize) -> Result<PassWorkspace<N>, Memory>
        ensures { IfOk result (IsRoomFor arcs slots) }
    {
        let rules = vec![in alloc; Price::zero(); CODES]?;
        let extras = Extras::new(alloc, arcs)?;
        let sums = vec![in alloc; Sum::none(); slots]?;
        Ok(PassWorkspace {
            rules,
            extras,
            sums,
        })
    }
}
