//! What the counts cost that a path leaves, and their roster.

ghost use Rattle.std.specs.Prelude.{◌≡◌, ◌≤◌, OnOk};
ghost use Rattle.law_bounds.specs.Pinned.{IsPinnedValue};
ghost use Rattle.search_arc_counts.specs.node_path.Paths.{IsPath};
ghost use Rattle.search_candidates.specs.Offers.{limit_of};
ghost use Rattle.lp_master_rows.specs.search_day.Days.{IsDay};
ghost use Rattle.search_primal.specs.Workspaces.{CanFind, HasFound};
ghost use Rattle.search_primal.specs.Jobs.{IsBusyDay};
ghost use Rattle.search_branch_price.specs.Plans.{IsPinnedFor};

use crate::counts::least_counts;
use lp_master_rows::Day;
use model_rosters::{Memory, greatest_cost};
use search_arc_counts::NodePath;
use search_candidates::{Roster, limit, offer_counts};
use search_masters::Pool;
use search_primal::SearchWorkspace;
use std::alloc::Global;

/// Returns what the counts cost that a path leaves the arcs; where they are those of no allowed roster, one
/// more than the greatest cost.
pub(crate) fn pinned_value(day: &Day, path: &mut NodePath) -> u64
    requires day { IsDay day.now }
    requires path { IsPath day.now.instance.now day.now.graph.now path.old }
    ensures value { IsPinnedValue day.now.instance.now path.old.cuts result }
    ensures same { path.new ≡ path.old }
{
    match path.pinned_cost(day) {
        Some(cost) => cost,
        None => greatest_cost(day.instance) + 1,
    }
}

/// Offers the roster of the counts that a path leaves the arcs, where these cost less than the best one.
///
/// # Errors
///
/// `Memory` where memory runs out; the best roster is an allowed one still then, and the pool has its trees
/// under their numbers, and perhaps further trees of the day.
pub(crate) fn offer_least(
    alloc: Global,
    day: &Day,
    path: &NodePath,
    value: u64,
    workspace: &mut SearchWorkspace,
    pool: &mut Pool,
    best: &mut Option<Roster>,
) -> Result<(), Memory>
    requires day { IsBusyDay day.now }
    requires path { IsPath day.now.instance.now day.now.graph.now path.now }
    requires pinned { IsPinnedFor day.now.instance.now path.now.cuts value }
    requires find { CanFind day.now pool.old workspace.old best.old }
    ensures reached { OnOk result (limit_of day.now.instance.now best.new ≤ value) }
    ensures found { HasFound day.now pool.old pool.new workspace.new best.old best.new }
{
    if limit(day.instance, best) <= value {
        return Ok(());
    }
    let counts = least_counts(alloc, day.graph, path.arc_box())?;
    offer_counts(alloc, day, &counts, pool, &mut workspace.rosters, best)
}
