//! Rosters from dives and from weights rounded down, completed and made better.

ghost use Rattle.std.specs.Prelude.{ℕ, ◌<◌, All, IfOk, length};
ghost use Rattle.lp_master_rows.specs.search_day.Days.{IsDay};
ghost use Rattle.search_primal.specs.Workspaces.{CanFind, HasFound};
ghost use Rattle.search_primal.specs.Nodes.{IsOpenNode, IsSmall};
ghost use Rattle.search_primal.specs.Rounded.{AreFewer};
ghost use Rattle.search_primal.specs.Solutions.{CanShow};

use crate::first::is_wide;
use crate::holes::{HolePlace, offer_holes};
use crate::offered::offer_trees;
use crate::open_node::OpenNode;
use crate::rounded::push_wholes;
use crate::shortening::shorten;
use crate::solved::Solved;
use crate::workspace::SearchWorkspace;
use lp_master_rows::Day;
use model_rosters::{Instance, List, Memory, Prices};
use search_candidates::{Roster, limit};
use search_dives::{Asks, DiveStart, dive};
use search_masters::{FULL, Pool, Weight};
use search_moves::{Guide, complete};
use search_watch::{Watch, Work};
use std::alloc::Global;
use tree_graph::Graph;

/// At every which node a roster is looked for by a dive, which takes about as long as it takes to price the
/// root.
const EVERY: u32 = 4;

/// The same on a wide day, where most nodes have the root's bound, and rosters are what is missing.
const EVERY_WIDE: u32 = 2;

/// How many passes over the graph the moves of a roster may take where it becomes no better, times the square
/// of the number of its trees.
const PASSES: u32 = 2;

/// How many they may take at the first node in all, times that square; at later nodes there are no more.
const FIRST_MOST: u32 = 32;

/// So many further passes are allowed for each tree of the pool, each of which took a pass to be found.
const FURTHER: u64 = 2;

/// There are at most so many further passes.
const MOST_FURTHER: u64 = 4096;

/// Returns how many further passes over the graph the moves may take at the first node of a wide day: as many
/// as the trees of its pool took and again so many, within a bound.
fn further_passes(graph: &Graph, pool: &Pool) -> u32 {
    if !is_wide(graph) {
        return 0;
    }
    let passes = (pool.len() as u64).saturating_mul(FURTHER);
    passes.min(MOST_FURTHER) as u32
}

/// How far a search is at a node.
#[derive(Clone, Copy, Drop)]
pub struct Stage {
    /// How many nodes were processed before it.
    pub processed: u32,
    /// The bound that it leaves.
    pub bound: u64,
    /// What its prices show; 0 where it has none.
    pub value: u64,
}

/// Says whether a roster is looked for by a dive at a node.
fn dives_at(graph: &Graph, stage: &Stage, pool: &Pool) -> bool {
    let is_due = if is_wide(graph) {
        stage.processed % EVERY_WIDE == 0
    } else {
        stage.processed % EVERY == 0
    };
    is_due && pool.len() < FULL
}

/// Returns what steers the moves of a roster at a node that has these prices; at the first node they may take
/// further passes.
pub(crate) fn guide_of<'a>(
    graph: &Graph,
    pool: &Pool,
    prices: &'a Prices,
    stage: &Stage,
) -> Guide<'a> {
    let is_first = stage.processed == 0;
    Guide {
        prices,
        passes: PASSES,
        further: if is_first {
            further_passes(graph, pool)
        } else {
            0
        },
        most: if is_first { FIRST_MOST } else { PASSES },
        goal: stage.bound,
        turn: stage.processed,
    }
}

/// Returns what steers the moves of a roster at a node that is priced: on a day that is not wide there are
/// none, and rosters are completed and exchanged once.
fn priced_guide<'a>(graph: &Graph, pool: &Pool, prices: &'a Prices, stage: &Stage) -> Guide<'a> {
    let guide = guide_of(graph, pool, prices, stage);
    if is_wide(graph) {
        return guide;
    }
    Guide { passes: 0, ..guide }
}

/// Returns trees by weights rounded down: each as often as the whole part of its weight.
fn wholes(alloc: Global, instance: &Instance, weights: &[Weight]) -> Result<List<usize>, Memory>
    ensures { (n : ℕ) → All (λ w. w.column < n) weights.now → IfOk result (AreFewer n) }
{
    let mut columns = List::new(alloc);
    push_wholes(&mut columns, weights, instance.heads_max as usize)?;
    Ok(columns)
}

/// Offers the roster of these trees, completed and made better.
///
/// # Errors
///
/// `Memory` where memory runs out; the best roster is an allowed one still then, and the pool has its trees
/// under their numbers, and perhaps further trees of the day.
pub(crate) fn offer_begun<W: Watch>(
    alloc: Global,
    day: &Day,
    begun: &[usize],
    guide: &Guide,
    workspace: &mut SearchWorkspace,
    pool: &mut Pool,
    best: &mut Option<Roster>,
    watch: &W,
) -> Result<(), Memory>
    requires day { IsDay day.now }
    requires begun { All (λ c. c < length pool.old) begun.now }
    requires find { CanFind day.now pool.old workspace.old best.old }
    ensures { HasFound day.now pool.old pool.new workspace.new best.old best.new }
{
    let columns = complete(alloc, day, begun, guide, &mut workspace.moves, pool, watch)?;
    offer_trees(
        alloc,
        day.instance,
        columns.as_slice(),
        pool,
        &mut workspace.rosters,
        best,
    )
}

/// Returns how a dive asks for trees on a day.
fn asks_on(graph: &Graph) -> Asks {
    if is_wide(graph) {
        Asks::Single
    } else {
        Asks::Several
    }
}

/// Offers the roster of the trees that a dive fixes, completed and exchanged. Says whether the dive is made:
/// one that is dropped is, and one that fixes none is not.
fn offer_dived<W: Watch>(
    alloc: Global,
    node: &OpenNode,
    guide: &Guide,
    workspace: &mut SearchWorkspace,
    pool: &mut Pool,
    best: &mut Option<Roster>,
    watch: &W,
) -> Result<bool, Memory>
    requires node { IsOpenNode node.now }
    requires small { IsSmall node.now.searched.day.instance.now node.now.cuts.now }
    requires find { CanFind node.now.searched.day pool.old workspace.old best.old }
    ensures { HasFound node.now.searched.day pool.old pool.new workspace.new best.old best.new }
{
    let day = &node.searched.day;
    let start = DiveStart {
        last: &workspace.handover.last,
        wanted: workspace.handover.wanted.as_slice(),
        asks: asks_on(day.graph),
    };
    let cost = limit(day.instance, best);
    let short = &mut workspace.moves.short;
    let found = dive(alloc, day, node.cuts, &start, cost, short, pool, watch)?;
    let Some(begun) = found else {
        return Ok(true);
    };
    if begun.is_empty() {
        return Ok(false);
    }
    offer_begun(
        alloc,
        day,
        begun.as_slice(),
        guide,
        workspace,
        pool,
        best,
        watch,
    )?;
    Ok(true)
}

/// Offers the roster of the trees of a solution, with weights rounded down, completed and made better.
fn offer_completed<W: Watch>(
    alloc: Global,
    day: &Day,
    weights: &[Weight],
    guide: &Guide,
    workspace: &mut SearchWorkspace,
    pool: &mut Pool,
    best: &mut Option<Roster>,
    watch: &W,
) -> Result<(), Memory>
    requires day { IsDay day.now }
    requires weights { All (λ w. w.column < length pool.old) weights.now }
    requires find { CanFind day.now pool.old workspace.old best.old }
    ensures { HasFound day.now pool.old pool.new workspace.new best.old best.new }
{
    let begun = wholes(alloc, day.instance, weights)?;
    offer_begun(
        alloc,
        day,
        begun.as_slice(),
        guide,
        workspace,
        pool,
        best,
        watch,
    )
}

/// Offers a roster at a node where more than completion is due: by holes on a wide day, or where these give
/// none that becomes the best one, of the trees that a dive fixes. Says whether one was offered so, or the
/// dive was dropped.
fn offer_due<W: Watch>(
    alloc: Global,
    node: &OpenNode,
    guide: &Guide,
    workspace: &mut SearchWorkspace,
    pool: &mut Pool,
    best: &mut Option<Roster>,
    watch: &W,
) -> Result<bool, Memory>
    requires node { IsOpenNode node.now }
    requires small { IsSmall node.now.searched.day.instance.now node.now.cuts.now }
    requires find { CanFind node.now.searched.day pool.old workspace.old best.old }
    ensures { HasFound node.now.searched.day pool.old pool.new workspace.new best.old best.new }
{
    let place = HolePlace {
        turn: guide.turn,
        bound: guide.goal,
        prices: Some(guide.prices),
    };
    if offer_holes(alloc, &node.searched.day, &place, workspace, best, watch)? {
        return Ok(true);
    }
    offer_dived(alloc, node, guide, workspace, pool, best, watch)
}

/// Offers a roster at a node over the arcs that are kept: by holes or of the trees that a dive fixes, where
/// one is due and made, or else of the solution's trees.
fn offer_kept<W: Watch>(
    alloc: Global,
    node: &OpenNode,
    solved: &Solved,
    stage: &Stage,
    workspace: &mut SearchWorkspace,
    pool: &mut Pool,
    best: &mut Option<Roster>,
    watch: &W,
) -> Result<(), Memory>
    requires node { IsOpenNode node.now }
    requires small { IsSmall node.now.searched.day.instance.now node.now.cuts.now }
    requires weights { All (λ w. w.column < length pool.old) solved.now.weights }
    requires find { CanFind node.now.searched.day pool.old workspace.old best.old }
    ensures { HasFound node.now.searched.day pool.old pool.new workspace.new best.old best.new }
{
    let day = &node.searched.day;
    let guide = priced_guide(day.graph, pool, &solved.prices, stage);
    let is_over = watch.is_over();
    if !is_over
        && dives_at(day.graph, stage, pool)
        && offer_due(alloc, node, &guide, workspace, pool, best, watch)?
    {
        return Ok(());
    }
    let weights = solved.weights.as_slice();
    offer_completed(alloc, day, weights, &guide, workspace, pool, best, watch)
}

/// Offers a roster, unless the best one already costs no more than the bound that the node leaves: at the
/// first node and at each fourth one after it, on a wide day at each second one, that of the trees that a
/// dive fixes, unless it is dropped, and on a wide day first one by holes; at the others, and where the dive
/// fixes none, that of the solution's trees. Its trees are looked for over the arcs that a roster can have
/// which costs less than the best one, on a wide day over all. Where the search is over it offers none but
/// that of the solution's trees, and that only where there is no best one.
///
/// # Errors
///
/// `Memory` where memory runs out; the best roster is an allowed one still then, and the pool has its trees
/// under their numbers, and perhaps further trees of the day.
pub fn offer_at_node<W: Watch>(
    alloc: Global,
    node: &OpenNode,
    solved: &Solved,
    stage: &Stage,
    workspace: &mut SearchWorkspace,
    pool: &mut Pool,
    best: &mut Option<Roster>,
    watch: &W,
) -> Result<(), Memory>
    requires node { IsOpenNode node.now }
    requires small { IsSmall node.now.searched.day.instance.now node.now.cuts.now }
    requires prices { CanShow node.now.searched.day.instance.now solved.now.prices node.now.cuts.now }
    requires weights { All (λ w. w.column < length pool.old) solved.now.weights }
    requires find { CanFind node.now.searched.day pool.old workspace.old best.old }
    ensures { HasFound node.now.searched.day pool.old pool.new workspace.new best.old best.new }
{
    let day = &node.searched.day;
    if limit(day.instance, best) <= stage.bound || watch.is_over() && best.is_some() {
        return Ok(());
    }
    watch.tell(Work::Rosters);
    shorten(day, node.cuts, &solved.prices, stage.value, best, workspace);
    offer_kept(alloc, node, solved, stage, workspace, pool, best, watch)
}
