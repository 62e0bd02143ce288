//! Whether a master can be made of a sample day, and the graph of one.

ghost use Rattle.std.specs.Prelude.{◌≡◌, ◌≤◌, [], All, IfOk, min};
ghost use Rattle.std.specs.Bool.{OnTrue};
ghost use Rattle.model_rosters.specs.Sound.{IsSound};
ghost use Rattle.model_rosters.specs.SoundInstance.{IsSoundInstance};
ghost use Rattle.model_rosters.specs.Trees.{Parts, IsDayTree};
ghost use Rattle.tree_graph.specs.Graphs.{IsGraph};
ghost use Rattle.rows_search.specs.Days.{IsMasterDay};

use model_rosters::{Cell, Grammar, Instance};
use std::alloc::Global;
use std::test::Fail;
use tree_graph::{Graph, GraphFault};
use tree_pool::normalise;

fn has_no_groups(day: &Instance) -> bool
    ensures { OnTrue result (day.now.groups ≡ []) }
{
    day.groups.is_empty()
}

/// Says whether the day has a tree: an arc of it.
#[tactic(auto, using(crate::proofs::MasterDays::some_tree))]
fn has_tree(grammar: &Grammar, graph: &Graph) -> bool
    requires { IsGraph grammar.now graph.now }
    ensures { OnTrue result ((t : Parts) × IsDayTree grammar.now t) }
{
    if graph.arcs().len() == 0 {
        return false;
    }
    true
}

fn is_meetable(cell: &Cell, most: u32) -> bool
    ensures { OnTrue result (cell.now.floor ≤ min cell.now.ceiling most) }
{
    cell.floor <= cell.ceiling.min(most)
}

/// Returns whether each cell has a count in its range.
fn are_meetable(day: &Instance) -> bool
    ensures { OnTrue result (All (λ d. d.floor ≤ min d.ceiling day.now.heads_max) day.now.cells) }
{
    day.cells
        .as_slice()
        .iter()
        .all(|cell| is_meetable(cell, day.heads_max))
}

/// Returns whether a master can be made of a sound day: it has no groups and some tree, and each cell has a
/// count in its range.
#[tactic(auto, using(crate::proofs::MasterDays::master_day))]
pub fn is_master_day(day: &Instance, graph: &Graph) -> bool
    requires sound { IsSoundInstance day.now }
    requires graph { IsGraph day.now.grammar graph.now }
    ensures { OnTrue result (IsMasterDay day.now) }
{
    has_no_groups(day) && has_tree(&day.grammar, graph) && are_meetable(day)
}

fn build(alloc: Global, grammar: &Grammar) -> Result<Graph, GraphFault>
    requires { IsSound grammar.now }
    ensures { IfOk result (IsGraph grammar.now) }
{
    let normal = normalise(alloc, grammar)?;
    let graph = Graph::build(alloc, grammar, &normal);
    drop(normal);
    graph
}

/// Returns the graph of a sound grammar.
pub fn graph_of(alloc: Global, grammar: &Grammar) -> Result<Graph, Fail>
    requires { IsSound grammar.now }
    ensures { IfOk result (IsGraph grammar.now) }
{
    match build(alloc, grammar) {
        Ok(graph) => Ok(graph),
        Err(_) => Err(Fail::from("no graph")),
    }
}
