//! The roster of some trees' words, where it is allowed.

ghost use Rattle.std.specs.Prelude.{◌<◌, All, IfOk, IfSome, length};
ghost use Rattle.tree_pool.specs.Pools.{IsPool};
ghost use Rattle.model_rosters.specs.Rosters.{IsRoster, roster_cost};
ghost use Rattle.check_certificates.specs.RosterCauses.{duties, stated_prices};
ghost use Rattle.search_candidates.specs.Rosters.{IsGoodRoster, CostsAtMost, IsWorkspaceFor, ArePricedShifts};
ghost use Rattle.search_candidates.specs.Rosters.{IsRosterOf};

use crate::shifts::shifts_of;
use crate::workspace::RosterWorkspace;
use check_parts::{coverage_fault, heads_fault, stated_cost};
use model_rosters::{Instance, List, Memory, Shift};
use std::alloc::Global;
use tree_pool::Pool;

// How many shifts a roster has at most.
const MOST_SHIFTS: usize = 64;

/// An allowed roster at its cost.
#[derive(Debug, Drop)]
pub struct Roster {
    /// The shifts in order of their groups, and within a group of their words' bytes, each at its price.
    pub shifts: List<Shift>,
    pub cost: u64,
}

/// Returns the roster of shifts at their prices, where it is allowed.
pub(crate) fn judged(
    instance: &Instance,
    shifts: List<Shift>,
    workspace: &mut RosterWorkspace,
) -> Option<Roster>
    requires workspace { IsWorkspaceFor instance.now workspace.old }
    requires shifts { ArePricedShifts instance.now shifts }
    ensures roster { IfSome result (IsGoodRoster instance.now) }
    ensures cost { IsRoster instance.now (duties shifts) (stated_prices shifts)
        → CostsAtMost (roster_cost instance.now (duties shifts) (stated_prices shifts)) result }
    ensures workspace { IsWorkspaceFor instance.now workspace.new }
{
    workspace.room.keep_all(shifts.as_slice());
    let stated = workspace.room.shifts();
    let fault = heads_fault(instance, stated).or(coverage_fault(instance, stated));
    let cost = stated_cost(instance, stated);
    workspace.room.clear();
    if fault.is_some() {
        return None;
    }
    Some(Roster { shifts, cost })
}

/// Returns the roster of the words of trees of the pool, each at its price; `None` where it is not
/// allowed. The trees may stand several times.
///
/// # Errors
///
/// `Memory` where memory runs out; the workspace is still one for the instance then.
pub fn roster_of(
    alloc: Global,
    instance: &Instance,
    pool: &Pool,
    columns: &[usize],
    workspace: &mut RosterWorkspace,
) -> Result<Option<Roster>, Memory>
    requires pool { IsPool instance.now.grammar pool.now }
    requires columns { All (λ c. c < length pool.now) columns.now }
    requires workspace { IsWorkspaceFor instance.now workspace.old }
    ensures roster { IfOk result (IsRosterOf instance.now pool.now columns.now) }
    ensures workspace { IsWorkspaceFor instance.now workspace.new }
{
    if columns.len() > MOST_SHIFTS {
        return Ok(None);
    }
    let shifts = shifts_of(alloc, instance, pool, columns, workspace)?;
    Ok(judged(instance, shifts, workspace))
}
