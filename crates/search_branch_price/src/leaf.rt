//! What becomes of a leaf.

ghost use Rattle.std.specs.Prelude.{◌≡◌, ◌≤◌, All, IfOk, IfSome, OnOk};
ghost use Rattle.model_rosters.specs.declared.instance.Cut.{Cut as PathCut};
ghost use Rattle.law_bounds.specs.Pinned.{IsPinned};
ghost use Rattle.lp_master_rows.specs.search_day.Rooms.{ArePricing, StayPricing};
ghost use Rattle.search_masters.specs.Ends.{AreLawful};
ghost use Rattle.search_primal.specs.Workspaces.{AreTools, StayTools, IsBench, StayBench, IsWorkspace};
ghost use Rattle.search_primal.specs.Jobs.{IsBusyDay};
ghost use Rattle.search_primal.specs.Nodes.{IsOpenNode};
ghost use Rattle.search_primal.specs.Solutions.{IsSolved};
ghost use Rattle.search_branch_price.specs.Roots.{AreShown};
ghost use Rattle.search_branch_price.specs.Turns.{IsInHand, IsTurnedBelow, IsLeafAt, IsTurnedAt, StopsAt};
ghost use Rattle.search_branch_price.specs.Turns.{IsOpenLeafAt, EndsTurnOver, IsGivenUpAt, IsTurnedFailing};

use crate::asking::ask_master;
use crate::choose::plan_for;
use crate::counts::arc_at;
use crate::pinned::{offer_least, pinned_value};
use crate::progress::{Progress, tell_best};
use crate::turn_end::{RootPrices, TurnEnd};
use crate::value::shown_value;
use lp_master_rows::{Day, Pricing};
use model_rosters::{Memory, Prices};
use search_candidates::limit;
use search_masters::{Cause, Master, Pool};
use search_open_nodes::OpenLeaf;
use search_primal::{
    OpenNode, Outcome, SearchBench, SearchWorkspace, Solved, Stage, offer_at_node, offer_late,
    offer_without_prices, outcome_of, want,
};
use search_watch::Watch;
use std::alloc::Global;

/// Processes a leaf whose path leaves each arc one count: offers the roster of these counts, and says what
/// they cost.
///
/// # Errors
///
/// `Memory` where memory runs out; nothing is said of how far the search is then. The path is still one of
/// the graph, and the pool has its trees under their numbers, and perhaps further trees of the day.
pub(crate) fn pin_leaf(
    alloc: Global,
    day: &Day,
    bench: &mut SearchBench,
    pool: &mut Pool,
    progress: &mut Progress,
    leaf: OpenLeaf,
) -> Result<(), Memory>
    requires day { IsBusyDay day.now }
    requires bench { IsBench day.now pool.old bench.old }
    requires pinned { IsPinned day.now.instance.now bench.old.path.cuts }
    requires leaf { IsInHand day.now progress.old leaf bench.old.path.cuts }
    ensures turned { OnOk result (IsTurnedBelow day.now progress.old leaf bench.old.path.cuts progress.new) }
    ensures bench { StayBench day.now pool.old pool.new bench.new }
{
    let value = pinned_value(day, &mut bench.path);
    offer_least(
        alloc,
        day,
        &bench.path,
        value,
        &mut bench.workspace,
        pool,
        &mut progress.best,
    )?;
    progress.tree.pin(leaf, value);
    Ok(())
}

/// Processes a leaf whose master failed: splits it on an arc of more than one count, in the middle.
fn fail_leaf(node: &OpenNode, progress: &mut Progress, leaf: OpenLeaf) -> Result<(), Memory>
    requires node { IsOpenNode node.now }
    requires leaf { IsGivenUpAt node.now progress.old leaf }
    ensures turned { OnOk result (IsTurnedFailing node.now progress.old leaf progress.new) }
{
    let loose = node.loose;
    let b = node.arc_box.low(loose).midpoint(node.arc_box.high(loose));
    let graph = node.searched.day.graph;
    progress.tree.fail(leaf, arc_at(graph, loose), b)
}

/// Processes a leaf whose master is solved: lets it wait with its prices.
fn best_leaf<W: Watch>(
    alloc: Global,
    node: &OpenNode,
    solved: Solved,
    workspace: &mut SearchWorkspace,
    pool: &mut Pool,
    progress: &mut Progress,
    leaf: OpenLeaf,
    watch: &W,
) -> Result<(), Memory>
    requires node { IsOpenNode node.now }
    requires solved { IsSolved node.now.searched.day.instance.now node.now.cuts.now pool.old solved }
    requires tools { AreTools node.now.searched.day pool.old workspace.old }
    requires leaf { IsLeafAt node.now progress.old leaf }
    ensures turned { OnOk result (IsTurnedAt node.now progress.old leaf progress.new) }
    ensures tools { StayTools node.now.searched.day pool.old pool.new workspace.new }
{
    let Ok(()) = want(&mut workspace.handover.wanted, solved.weights.as_slice()) else {
        drop(solved);
        return Err(Memory);
    };
    let value = shown_value(
        &node.searched,
        &solved.prices,
        node.cuts,
        &mut workspace.pricing,
    );
    let Ok(plan) = plan_for(
        alloc,
        node,
        &solved,
        value,
        workspace,
        pool,
        &mut progress.best,
        watch,
    ) else {
        drop(solved);
        return Err(Memory);
    };
    tell_best(&progress.best, watch);
    let stage = Stage {
        processed: progress.tree.processed(),
        bound: leaf.bound.max(value),
        value,
    };
    let Ok(()) = offer_at_node(
        alloc,
        node,
        &solved,
        &stage,
        workspace,
        pool,
        &mut progress.best,
        watch,
    ) else {
        drop(solved);
        return Err(Memory);
    };
    progress.tree.price(leaf, solved.prices, value, plan)
}

/// Processes a leaf whose master was given up, once a roster is offered where one is due.
fn give_up_leaf<W: Watch>(
    alloc: Global,
    node: &OpenNode,
    cause: Cause,
    workspace: &mut SearchWorkspace,
    pool: &mut Pool,
    progress: &mut Progress,
    leaf: OpenLeaf,
    watch: &W,
) -> Result<(), Memory>
    requires node { IsOpenNode node.now }
    requires tools { AreTools node.now.searched.day pool.old workspace.old }
    requires leaf { IsGivenUpAt node.now progress.old leaf }
    ensures turned { OnOk result (IsTurnedFailing node.now progress.old leaf progress.new) }
    ensures tools { StayTools node.now.searched.day pool.old pool.new workspace.new }
{
    let day = &node.searched.day;
    let stage = Stage {
        processed: progress.tree.processed(),
        bound: leaf.bound,
        value: 0,
    };
    let best = &mut progress.best;
    offer_late(alloc, day, stage.processed, workspace, best, watch)?;
    tell_best(&progress.best, watch);
    let best = &mut progress.best;
    offer_without_prices(alloc, day, cause, &stage, workspace, pool, best, watch)?;
    fail_leaf(node, progress, leaf)
}

/// Returns prices of a node with what they show, where this is above 0 and below a limit.
fn shown_prices(
    node: &OpenNode,
    prices: Prices,
    limit: u64,
    pricing: &mut Pricing,
) -> Option<RootPrices>
    requires node { IsOpenNode node.now }
    requires pricing { ArePricing node.now.searched.day pricing.old }
    requires most { pricing.old.room.most ≡ 1500 }
    requires lawful { AreLawful node.now.searched.day.instance.now node.now.cuts.now prices }
    requires small { All (λ (c : PathCut). c.b ≤ 63) node.now.cuts.now }
    ensures shown { IfSome result (AreShown node.now.searched.day.instance.now node.now.cuts.now limit) }
    ensures pricing { StayPricing node.now.searched.day pricing.old pricing.new }
{
    let value = shown_value(&node.searched, &prices, node.cuts, pricing);
    if value == 0 || value >= limit {
        return None;
    }
    Some(RootPrices { prices, value })
}

/// Returns how the turn of a leaf ends whose master was stopped. The leaf stays as it is; the root alone
/// keeps prices that fit it, where they show more than 0 and less than the best roster costs.
fn stopped_end(
    node: &OpenNode,
    own: Option<Prices>,
    pricing: &mut Pricing,
    progress: &Progress,
    leaf: OpenLeaf,
) -> TurnEnd
    requires node { IsOpenNode node.now }
    requires pricing { ArePricing node.now.searched.day pricing.old }
    requires most { pricing.old.room.most ≡ 1500 }
    requires own { IfSome own (AreLawful node.now.searched.day.instance.now node.now.cuts.now) }
    requires leaf { IsLeafAt node.now progress.now leaf }
    ensures stops { StopsAt node.now progress.now leaf progress.now result }
    ensures pricing { StayPricing node.now.searched.day pricing.old pricing.new }
{
    let Some(prices) = own else {
        return TurnEnd::Stopped(leaf);
    };
    if progress.tree.processed() > 0 {
        return TurnEnd::Stopped(leaf);
    }
    let limit = limit(node.searched.day.instance, &progress.best);
    match shown_prices(node, prices, limit, pricing) {
        Some(root) => TurnEnd::StoppedAtRoot(root),
        None => TurnEnd::Stopped(leaf),
    }
}

/// Ends the turn of a leaf whose master was stopped, once a first roster is offered where none was looked
/// for.
fn stop_leaf<W: Watch>(
    alloc: Global,
    node: &OpenNode,
    own: Option<Prices>,
    workspace: &mut SearchWorkspace,
    progress: &mut Progress,
    leaf: OpenLeaf,
    watch: &W,
) -> Result<TurnEnd, Memory>
    requires node { IsOpenNode node.now }
    requires workspace { IsWorkspace node.now.searched.day workspace.old }
    requires own { IfSome own (AreLawful node.now.searched.day.instance.now node.now.cuts.now) }
    requires leaf { IsLeafAt node.now progress.old leaf }
    ensures stops { IfOk result (StopsAt node.now progress.old leaf progress.new) }
    ensures workspace { IsWorkspace node.now.searched.day workspace.new }
{
    let day = &node.searched.day;
    let processed = progress.tree.processed();
    let Ok(()) = offer_late(alloc, day, processed, workspace, &mut progress.best, watch) else {
        drop(own);
        return Err(Memory);
    };
    Ok(stopped_end(node, own, &mut workspace.pricing, progress, leaf))
}

/// Processes a leaf whose path leaves an arc more than one count: prices it, or splits it where its master
/// fails. Where the watch stops its master the leaf stays as it is, but that the root may keep prices, and a
/// first roster is offered still.
///
/// # Errors
///
/// `Memory` where memory runs out; nothing is said of how far the search is then. The master's count of
/// refusals has not fallen, and the pool has its trees under their numbers, and perhaps further trees of the
/// day.
pub(crate) fn price_leaf<M: Master, W: Watch>(
    alloc: Global,
    node: &OpenNode,
    workspace: &mut SearchWorkspace,
    pool: &mut Pool,
    master: &mut M,
    progress: &mut Progress,
    leaf: OpenLeaf,
    watch: &W,
) -> Result<TurnEnd, Memory>
    requires node { IsOpenNode node.now }
    requires tools { AreTools node.now.searched.day pool.old workspace.old }
    requires leaf { IsOpenLeafAt node.now (M.strict master.old) (M.refused master.old) progress.old leaf }
    ensures turned { IfOk result (EndsTurnOver node.now (M.strict master.old) (M.refused master.old)
        (M.refused master.new) (W.patient watch.now) progress.old leaf progress.new) }
    ensures rises { M.refused master.old ≤ M.refused master.new }
    ensures strict_stays { M.strict master.new ≡ M.strict master.old }
    ensures tools { StayTools node.now.searched.day pool.old pool.new workspace.new }
{
    let end = ask_master(alloc, node, workspace, pool, master, watch)?;
    match outcome_of(end) {
        Outcome::Solved(solved) => {
            best_leaf(alloc, node, solved, workspace, pool, progress, leaf, watch)?;
            Ok(TurnEnd::Done)
        }
        Outcome::Failed(cause) => {
            give_up_leaf(alloc, node, cause, workspace, pool, progress, leaf, watch)?;
            Ok(TurnEnd::Done)
        }
        Outcome::Stopped(own) => stop_leaf(alloc, node, own, workspace, progress, leaf, watch),
    }
}
