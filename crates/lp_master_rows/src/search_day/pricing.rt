//! What prices the trees of a day that is searched.

ghost use Rattle.std.specs.Prelude.{◌≡◌, IfOk};
ghost use Rattle.lp_master_rows.specs.search_day.Days.{IsDay};
ghost use Rattle.lp_master_rows.specs.search_day.Rooms.{ArePricing};

use crate::search_day::day::Day;
use model_rosters::{Memory, PriceRoom};
use std::alloc::Global;
use tree_cheapest::Pricer;

/// What it takes to price trees: the graph's pricer, and room for the prices.
#[derive(Drop)]
pub struct Pricing {
    pub pricer: Pricer,
    pub room: PriceRoom,
}

impl Pricing {
    /// Returns what prices the trees of this day, at prices of this many multipliers at most. It takes all
    /// its memory here.
    ///
    /// # Errors
    ///
    /// `Memory` where memory runs out; nothing is kept then.
    pub fn new(alloc: Global, day: &Day, most: usize) -> Result<Pricing, Memory>
        requires { IsDay day.now }
        ensures pricing { IfOk result (ArePricing day.now) }
        ensures most { IfOk result (λ p. p.room.most ≡ most) }
    {
        let pricer = Pricer::new(alloc, day.graph)?;
        match PriceRoom::for_cuts(alloc, day.instance, most) {
            Ok(room) => Ok(Pricing { pricer, room }),
            Err(fault) => {
                drop(pricer);
                Err(fault)
            }
        }
    }
}
