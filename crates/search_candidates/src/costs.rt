//! Prices under which a tree's sum is its cost, and the pricer filled for them.

ghost use Rattle.std.specs.Prelude.{OnOk};
ghost use Rattle.lp_master_rows.specs.search_day.Days.{IsDay};
ghost use Rattle.lp_master_rows.specs.search_day.Rooms.{ArePricing, StayPricing};
ghost use Rattle.search_candidates.specs.Priced.{IsPricedByCosts};

use lp_master_rows::{Day, Pricing};
use model_rosters::Memory;
use std::alloc::Global;

/// Sets the prices under which the sum of a tree of the day is its cost, and fills the pricer for them.
///
/// # Errors
///
/// `Memory` where memory runs out; the pricer and the room are still those of the day then, and nothing is
/// said of the prices.
pub fn price_by_costs(alloc: Global, day: &Day, pricing: &mut Pricing) -> Result<(), Memory>
    requires day { IsDay day.now }
    requires pricing { ArePricing day.now pricing.old }
    ensures costs { OnOk result (IsPricedByCosts day.now pricing.new) }
    ensures pricing { StayPricing day.now pricing.old pricing.new }
{
    let zeros = Vec::from_elem(alloc, 0, day.instance.cells.len())?;
    pricing
        .room
        .set_parts(day.instance, 1, zeros.as_slice(), &[], &[]);
    pricing.pricer.cheapest(day.graph, &pricing.room);
    Ok(())
}
