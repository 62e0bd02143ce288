//! The arcs that a roster can have which costs less than the best one.

ghost use Rattle.lp_master_rows.specs.search_day.Days.{IsDay};
ghost use Rattle.search_primal.specs.Workspaces.{IsWorkspace};
ghost use Rattle.search_primal.specs.Solutions.{CanShow};

use crate::first::is_wide;
use crate::workspace::SearchWorkspace;
use lp_master_rows::Day;
use model_rosters::{Cut, Prices};
use search_candidates::Roster;
use tree_graph::Graph;

/// Returns by how much a tree of a roster that costs less than this may be dearer than a cheapest one, at
/// prices that show a value: by what lies between them and 1 more, in units of one in so many.
fn above_at(cost: u64, value: u64, d: u64) -> i128 {
    i128::from(cost)
        .saturating_sub(i128::from(value))
        .saturating_add(1)
        .saturating_mul(i128::from(d))
}

/// Returns the best roster's cost where arcs are left out by it: not on a wide day, where rosters are looked
/// for over all arcs.
fn cost_to_pass(graph: &Graph, best: &Option<Roster>) -> Option<u64> {
    if is_wide(graph) {
        return None;
    }
    match best {
        Some(roster) => Some(roster.cost),
        None => None,
    }
}

/// Keeps for dives and moves the arcs that a roster can have which costs less than the best one, where a
/// node's prices show this value; without a best one, and on a wide day, it keeps all.
pub(crate) fn shorten(
    day: &Day,
    cuts: &[Cut],
    prices: &Prices,
    value: u64,
    best: &Option<Roster>,
    workspace: &mut SearchWorkspace,
)
    requires day { IsDay day.now }
    requires prices { CanShow day.now.instance.now prices.now cuts.now }
    requires workspace { IsWorkspace day.now workspace.old }
    ensures workspace { IsWorkspace day.now workspace.new }
{
    let short = &mut workspace.moves.short;
    let Some(cost) = cost_to_pass(day.graph, best) else {
        short.keep_all(day.graph);
        return;
    };
    let room = &mut workspace.pricing.room;
    let cell = prices.cell.as_slice();
    let mult = prices.mult.as_slice();
    room.set_parts(day.instance, prices.d, cell, mult, cuts);
    let above = above_at(cost, value, prices.d);
    short.keep(day.graph, &*room, above);
}

/// Keeps all arcs for dives and moves, where there are no prices.
pub(crate) fn keep_all(day: &Day, workspace: &mut SearchWorkspace)
    requires day { IsDay day.now }
    requires workspace { IsWorkspace day.now workspace.old }
    ensures workspace { IsWorkspace day.now workspace.new }
{
    workspace.moves.short.keep_all(day.graph);
}
