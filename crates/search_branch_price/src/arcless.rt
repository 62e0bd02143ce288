//! Days without arcs: the root is pinned, and its counts are those of the roster without shifts.

ghost use Rattle.std.specs.Prelude.{IfOk};
ghost use Rattle.lp_master_rows.specs.search_day.Rooms.{Grows};
ghost use Rattle.search_primal.specs.Workspaces.{IsRootBench};
ghost use Rattle.search_branch_price.specs.Arcless.{IsArclessDay, IsRootRoster};
ghost use Rattle.search_branch_price.specs.Found.{IsFoundAtRoot};

use crate::ended::{closed_end, stated};
use crate::found::Found;
use crate::pinned::{offer_least, pinned_value};
use check_certificates::{Cert, Node};
use lp_master_rows::Day;
use model_rosters::{List, Memory};
use search_candidates::{Roster, least_roster};
use search_masters::Pool;
use search_primal::SearchBench;
use std::alloc::Global;

/// Returns the roster that the root of a day without arcs leaves: that without shifts, where it is allowed.
fn root_roster(
    alloc: Global,
    day: &Day,
    bench: &mut SearchBench,
    pool: &mut Pool,
) -> Result<Option<Roster>, Memory>
    requires day { IsArclessDay day.now }
    requires bench { IsRootBench day.now pool.old bench.old }
    ensures best { IfOk result (IsRootRoster day.now.instance.now) }
    ensures pool { Grows day.now pool.old pool.new }
{
    let mut best = least_roster(
        alloc,
        day,
        &mut bench.workspace.pricing,
        pool,
        &mut bench.workspace.rosters,
    )?;
    let value = pinned_value(day, &mut bench.path);
    offer_least(
        alloc,
        day,
        &bench.path,
        value,
        &mut bench.workspace,
        pool,
        &mut best,
    )?;
    Ok(best)
}

/// Returns what a search finds whose one node is pinned, with this roster.
fn found_at_root(alloc: Global, day: &Day, best: Option<Roster>) -> Result<Found, Memory>
    requires day { IsArclessDay day.now }
    requires best { IsRootRoster day.now.instance.now best }
    ensures { IfOk result (IsFoundAtRoot day.now.instance.now) }
{
    let mut nodes = List::new(alloc);
    nodes.push(Node::Pinned)?;
    let (bound, done) = closed_end(&best);
    let (shifts, cost) = stated(alloc, best);
    Ok(Found {
        cert: Cert {
            shifts,
            cost,
            bound,
            nodes,
        },
        done,
        processed: 1,
        failed: 0,
    })
}

/// Searches a day without arcs, at its root, which leaves no arc more than one count.
///
/// # Errors
///
/// `Memory` where memory runs out; the pool has its trees under their numbers then, and perhaps further trees
/// of the day.
pub(crate) fn search_arcless(
    alloc: Global,
    day: &Day,
    bench: &mut SearchBench,
    pool: &mut Pool,
) -> Result<Found, Memory>
    requires day { IsArclessDay day.now }
    requires bench { IsRootBench day.now pool.old bench.old }
    ensures found { IfOk result (IsFoundAtRoot day.now.instance.now) }
    ensures pool { Grows day.now pool.old pool.new }
{
    let best = root_roster(alloc, day, bench, pool)?;
    found_at_root(alloc, day, best)
}
