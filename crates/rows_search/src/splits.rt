//! The arc to split on that near weights of a half point to.
//!
//! The arc that near weights of a half point to (`search_arc_weights`): each arc of the graph where it is
//! preferred, and else one of the longest; and one that is farthest from a whole number.

ghost use Rattle.std.specs.Prelude.{[], IfOk};
ghost use Rattle.model_rosters.specs.SoundInstance.{IsSoundInstance};
ghost use Rattle.tree_graph.specs.Graphs.{IsGraph};
ghost use Rattle.search_arc_counts.specs.count_boxes.Paths.{IsBoxOf};
ghost use Rattle.search_masters.specs.declared.ends.Solution.TheVariants.{Near as is_near};
ghost use Rattle.search_masters.specs.Ends.{AreSolved};
ghost use Rattle.search_arc_weights.specs.Nodes.{IsSolvedNode};
ghost use Rattle.rows_search.specs.Days.{IsMasterDay, AreLent};

use crate::days::{graph_of, is_master_day};
use crate::first::solve;
use crate::masters::{Lent, PAIR_DAY, lent_for};
use lp_master_rows::Day;
use model_rosters::{Instance, List, Memory};
use model_sample_days::sound_day;
use search_arc_counts::ArcBox;
use search_arc_weights::{SolvedNode, Weighed, farthest_from_whole, weigh};
use search_masters::{First, NodeEnd, Solution, Weight};
use search_open_nodes::Plan;
use std::alloc::Global;
use std::test::Fail;
use tree_graph::Graph;

/// How many arcs the day of pairs has: one for each symbol but the last of its three rules.
const ARCS: u32 = 6;

/// Returns the split that the weights of a solved node point to.
fn split_of(
    alloc: Global,
    node: &SolvedNode<'_>,
    preferred: Option<u32>,
) -> Result<Option<Plan>, Memory>
    requires { IsSolvedNode node.now }
{
    match weigh(alloc, node, preferred)? {
        Weighed::Between { arc, b } => Ok(Some(Plan { arc, b })),
        Weighed::Whole(_) | Weighed::Other => Ok(None),
    }
}

/// Whether a split is between 0 and 1, on an arc of a whole rule.
fn is_of_whole_rule(graph: &Graph, split: Option<Plan>) -> bool {
    let Some(Plan { arc, b: 0 }) = split else {
        return false;
    };
    match graph.arcs().get(arc as usize) {
        Some(key) => key.suffix == 0 && key.len == 3,
        None => false,
    }
}

/// Whether one of the longest arcs of the graph is split where none of its arcs is preferred.
fn splits_longest(alloc: Global, node: &SolvedNode<'_>) -> Result<bool, Memory>
    requires { IsSolvedNode node.now }
{
    let free = split_of(alloc, node, None)?;
    let strange = split_of(alloc, node, Some(ARCS))?;
    Ok(is_of_whole_rule(node.day.graph, free) && is_of_whole_rule(node.day.graph, strange))
}

/// Whether each of the graph's arcs is split between 0 and 1 where it is preferred.
fn splits_preferred(alloc: Global, node: &SolvedNode<'_>) -> Result<bool, Memory>
    requires { IsSolvedNode node.now }
{
    for arc in 0..ARCS {
        if split_of(alloc, node, Some(arc))? != Some(Plan { arc, b: 0 }) {
            return Ok(false);
        }
    }
    Ok(true)
}

/// Whether an arc of the graph is farthest from a whole number, above 0.
fn has_farthest(alloc: Global, node: &SolvedNode<'_>) -> Result<bool, Memory>
    requires { IsSolvedNode node.now }
{
    match farthest_from_whole(alloc, node)? {
        Some((arc, b)) => Ok(arc < ARCS && b == 0),
        None => Ok(false),
    }
}

/// Whether a solved node is split so.
fn is_split(alloc: Global, node: &SolvedNode<'_>) -> Result<bool, Memory>
    requires { IsSolvedNode node.now }
{
    Ok(splits_longest(alloc, node)? && splits_preferred(alloc, node)? && has_farthest(alloc, node)?)
}

/// Solves the master of the root, going to near prices first, and returns the weights of its near end.
fn near_weights(
    alloc: Global,
    day: &Instance,
    graph: &Graph,
    lent: &mut Lent,
) -> Result<List<Weight>, Fail>
    requires day { IsMasterDay day.now }
    requires graph { IsGraph day.now.grammar graph.now }
    requires lent { AreLent day.now graph.now lent.old.pricer lent.old.pool }
    ensures lent { AreLent day.now graph.now lent.new.pricer lent.new.pool }
    ensures weights { IfOk result (AreSolved is_near day.now [] lent.new.pool) }
{
    match solve(alloc, day, graph, lent, First::Near)? {
        NodeEnd::Near { weights, .. } => Ok(weights),
        NodeEnd::Best { .. } | NodeEnd::Failed(_) | NodeEnd::Stopped(_) => {
            Err(Fail::from("no near end"))
        }
    }
}

/// Whether the root is split so at its near end, where the arcs have the root's box.
fn is_split_in(
    alloc: Global,
    day: &Instance,
    graph: &Graph,
    lent: &mut Lent,
    arc_box: &ArcBox,
) -> Result<bool, Fail>
    requires day { IsMasterDay day.now }
    requires graph { IsGraph day.now.grammar graph.now }
    requires lent { AreLent day.now graph.now lent.old.pricer lent.old.pool }
    requires left { IsBoxOf day.now graph.now [] arc_box.now }
{
    let weights = near_weights(alloc, day, graph, lent)?;
    let node = SolvedNode {
        day: Day {
            instance: day,
            graph,
        },
        cuts: &[],
        arc_box,
        pool: &lent.pool,
        weights: weights.as_slice(),
        solution: Solution::Near,
    };
    let is_split = is_split(alloc, &node);
    drop(weights);
    Ok(is_split?)
}

/// The same, with a box of its own.
fn is_split_with(
    alloc: Global,
    day: &Instance,
    graph: &Graph,
    lent: &mut Lent,
) -> Result<bool, Fail>
    requires day { IsMasterDay day.now }
    requires graph { IsGraph day.now.grammar graph.now }
    requires lent { AreLent day.now graph.now lent.old.pricer lent.old.pool }
{
    let arc_box = ArcBox::new(alloc, day, graph)?;
    let is_split = is_split_in(alloc, day, graph, lent, &arc_box);
    drop(arc_box);
    is_split
}

/// The same, with a pool of its own.
fn is_split_on(alloc: Global, day: &Instance, graph: &Graph) -> Result<bool, Fail>
    requires sound { IsSoundInstance day.now }
    requires graph { IsGraph day.now.grammar graph.now }
{
    if !is_master_day(day, graph) || graph.arcs().len() != ARCS as usize {
        return Err(Fail::from("no master of the day"));
    }
    let mut lent = lent_for(alloc, day, graph)?;
    let is_split = is_split_with(alloc, day, graph, &mut lent);
    drop(lent);
    is_split
}

/// The same, with a graph of its own.
fn is_split_root(alloc: Global, day: &Instance) -> Result<bool, Fail>
    requires { IsSoundInstance day.now }
{
    let graph = graph_of(alloc, &day.grammar)?;
    let is_split = is_split_on(alloc, day, &graph);
    drop(graph);
    is_split
}

// The three trees weigh a half each, and no two share an arc: the trees of each arc weigh a half together,
// which is well between 0 and 1, so the lengths decide where no arc is preferred.
#[test]
fn near_halves_split_a_longest_or_the_preferred_arc(rt: HostRuntime) -> Result<(), Fail> {
    let day = sound_day(rt.alloc(), &PAIR_DAY)?;
    let is_split = is_split_root(rt.alloc(), &day);
    drop(day);
    assert!(rt; is_split?);
    Ok(())
}
