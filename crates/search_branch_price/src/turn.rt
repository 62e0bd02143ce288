//! One turn of a search, over one node.

ghost use Rattle.std.specs.Prelude.{◌≡◌, ◌≤◌, IfOk, OnOk};
ghost use Rattle.search_primal.specs.Workspaces.{StayTools, IsBench, IsPathOf};
ghost use Rattle.search_primal.specs.Jobs.{IsSearchedDay};
ghost use Rattle.search_branch_price.specs.Turns.{IsTaken, IsHalfInHand, IsDue, TakesTurn};

use crate::counts::arc_at;
use crate::leaf::{pin_leaf, price_leaf};
use crate::progress::Progress;
use crate::turn_end::TurnEnd;
use model_rosters::Memory;
use search_masters::{Master, Pool};
use search_open_nodes::OpenLeaf;
use search_primal::{OpenNode, SearchBench, SearchedDay};
use search_watch::Watch;
use std::alloc::Global;
use tree_graph::Graph;

/// Splits a leaf that has a plan, and returns the half that is to be processed; a leaf without one is to be
/// processed itself.
fn halve(graph: &Graph, progress: &mut Progress, leaf: OpenLeaf) -> Result<OpenLeaf, Memory>
    requires { IsTaken graph.now progress.old leaf }
    ensures { IfOk result (IsHalfInHand graph.now progress.old leaf progress.new) }
{
    match leaf.kept.plan {
        Some(plan) => {
            let arc = arc_at(graph, plan.arc);
            progress.tree.split(leaf, plan, arc)
        }
        None => Ok(leaf),
    }
}

/// One turn of a search, which processes one node: the leaf that was taken, or a half of it. Where the watch
/// stops it before the node has prices, the leaf, or the half, is in hand still, and a split above it keeps
/// its prices.
///
/// # Errors
///
/// `Memory` where memory runs out; nothing is said of the path and of how far the search is then. The
/// master's count of refusals has not fallen, and the pool has its trees under their numbers, and perhaps
/// further trees of the day.
pub(crate) fn turn<M: Master, W: Watch>(
    alloc: Global,
    searched: &SearchedDay,
    bench: &mut SearchBench,
    pool: &mut Pool,
    master: &mut M,
    progress: &mut Progress,
    leaf: OpenLeaf,
    watch: &W,
) -> Result<TurnEnd, Memory>
    requires searched { IsSearchedDay searched.now }
    requires bench { IsBench searched.now.day pool.old bench.old }
    requires leaf { IsDue searched.now.day (M.strict master.old) (M.refused master.old) progress.old leaf }
    ensures turned { IfOk result (TakesTurn searched.now.day (M.strict master.old) (M.refused master.old)
        (M.refused master.new) (W.patient watch.now) progress.old leaf progress.new) }
    ensures path { OnOk result (IsPathOf searched.now.day bench.new) }
    ensures rises { M.refused master.old ≤ M.refused master.new }
    ensures strict_stays { M.strict master.new ≡ M.strict master.old }
    ensures tools { StayTools searched.now.day pool.old pool.new bench.new.workspace }
{
    let day = &searched.day;
    let leaf = halve(day.graph, progress, leaf)?;
    bench
        .path
        .go_to(day, progress.tree.seats(), leaf.kept.seat)?;
    let arc_box = bench.path.arc_box();
    match arc_box.first_loose() {
        None => {
            pin_leaf(alloc, day, bench, pool, progress, leaf)?;
            Ok(TurnEnd::Done)
        }
        Some(loose) => {
            let node = OpenNode {
                searched: *searched,
                cuts: bench.path.cuts(),
                arc_box,
                loose,
            };
            price_leaf(
                alloc,
                &node,
                &mut bench.workspace,
                pool,
                master,
                progress,
                leaf,
                watch,
            )
        }
    }
}
