//! What prices trees for moves.

ghost use Rattle.std.specs.Prelude.{IfOk};
ghost use Rattle.lp_master_rows.specs.search_day.Days.{IsDay};
ghost use Rattle.search_moves.specs.ShortPricings.{AreShortPricing};

use lp_master_rows::Day;
use model_rosters::{Memory, PriceRoom};
use std::alloc::Global;
use tree_short_order::ShortOrder;

/// What it takes to price trees for moves: the kept arcs of the graph, and room for the prices.
#[derive(Drop)]
pub struct ShortPricing {
    pub short: ShortOrder,
    pub room: PriceRoom,
}

impl ShortPricing {
    /// Returns what prices trees of this day, with all arcs kept. It takes all its memory here.
    ///
    /// # Errors
    ///
    /// `Memory` where memory runs out; nothing is kept then.
    pub fn new(alloc: Global, day: &Day) -> Result<ShortPricing, Memory>
        requires { IsDay day.now }
        ensures { IfOk result (AreShortPricing day.now) }
    {
        let short = ShortOrder::new(alloc, day.graph)?;
        match PriceRoom::for_cuts(alloc, day.instance, 0) {
            Ok(room) => Ok(ShortPricing { short, room }),
            Err(fault) => {
                drop(short);
                Err(fault)
            }
        }
    }
}
