//! The roster with which a search begins.

ghost use Rattle.std.specs.Prelude.{IfOk};
ghost use Rattle.lp_master_rows.specs.search_day.Days.{IsDay};
ghost use Rattle.lp_master_rows.specs.search_day.Rooms.{ArePricing, StayPricing};
ghost use Rattle.search_candidates.specs.Starts.{IsFirstRoster};
ghost use Rattle.search_candidates.specs.Tools.{AreTools, StayTools};

use crate::costs::price_by_costs;
use crate::leaders::leaders;
use crate::roster::{Roster, roster_of};
use crate::workspace::RosterWorkspace;
use lp_master_rows::{Day, Pricing};
use model_rosters::Memory;
use std::alloc::Global;
use tree_pool::Pool;

/// Returns the roster with which a search begins: for each team its least number of equal shifts of
/// least price. `None` where this is not allowed, or a team that needs employees has no shift.
///
/// # Errors
///
/// `Memory` where memory runs out; the pricer, the room of prices and the workspace are still those of the
/// graph and of the instance then, and the pool has its trees under their numbers, and perhaps further trees
/// of the day.
pub fn least_roster(
    alloc: Global,
    day: &Day,
    pricing: &mut Pricing,
    pool: &mut Pool,
    workspace: &mut RosterWorkspace,
) -> Result<Option<Roster>, Memory>
    requires day { IsDay day.now }
    requires pricing { ArePricing day.now pricing.old }
    requires tools { AreTools day.now pool.old workspace.old }
    ensures roster { IfOk result (IsFirstRoster day.now.instance.now) }
    ensures pricing { StayPricing day.now pricing.old pricing.new }
    ensures tools { StayTools day.now pool.old pool.new workspace.new }
{
    price_by_costs(alloc, day, pricing)?;
    let Some(columns) = leaders(alloc, day, pricing, pool)? else {
        return Ok(None);
    };
    roster_of(alloc, day.instance, pool, columns.as_slice(), workspace)
}
