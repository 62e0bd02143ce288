//! Sizes, an arc that is not there, and days of many and of too many arcs (`tree_graph`).

use crate::days::{block_graph, build, words_graph};
use model_rosters::{ArcKey, Grammar, Memory, Sym, is_sound};
use model_sample_days::{ANY, RuleParts, WORK, grammar};
use std::alloc::Global;
use std::test::Fail;
use tree_graph::{Graph, GraphFault};

/// All ways to cut the day in two, again and again.
const HALVES: [RuleParts<'static>; 2] = [
    (0, 0, &[WORK], ANY),
    (0, 0, &[Sym::Name(0), Sym::Name(0)], ANY),
];

/// An arc that the day of one block lacks.
const LACKED: ArcKey = ArcKey {
    rule: 1,
    suffix: 0,
    start: 1,
    len: 4,
    part: 4,
};

fn has_size(graph: &Graph, nodes: u32, arcs: usize) -> bool {
    graph.nodes() == nodes && graph.arcs().len() == arcs
}

/// Whether the graph is that of one block.
fn is_block_graph(graph: &Graph) -> bool {
    has_size(graph, 20, 24) && graph.find(&LACKED).is_none()
}

#[test]
fn one_block_has_24_arcs(rt: HostRuntime) -> Result<(), Fail> {
    let graph = block_graph(rt.alloc())?;
    let is_right = is_block_graph(&graph);
    drop(graph);
    assert!(rt; is_right);
    Ok(())
}

#[test]
fn three_words_have_six_arcs(rt: HostRuntime) -> Result<(), Fail> {
    let graph = words_graph(rt.alloc())?;
    let is_right = has_size(&graph, 4, 6);
    drop(graph);
    assert!(rt; is_right);
    Ok(())
}

/// The number of arcs of a grammar's graph, if the grammar is sound.
fn count_arcs(alloc: Global, grammar: &Grammar) -> Option<Result<usize, GraphFault>> {
    if !is_sound(grammar) {
        return None;
    }
    match build(alloc, grammar) {
        Ok(graph) => {
            let count = graph.arcs().len();
            drop(graph);
            Some(Ok(count))
        }
        Err(fault) => Some(Err(fault)),
    }
}

/// Whether all cuts in two of a day of so many periods have so many arcs, or too many.
fn is_count(alloc: Global, periods: u8, count: Result<usize, GraphFault>) -> Result<bool, Memory> {
    let grammar = grammar(alloc, periods, &["S"], &HALVES, 0)?;
    Ok(count_arcs(alloc, &grammar) == Some(count))
}

#[test]
fn days_of_many_arcs(rt: HostRuntime) -> Result<(), Memory> {
    let many = GraphFault::TooManyArcs { count: 147_536 };
    assert!(rt; is_count(rt.alloc(), 80, Ok(85_400))?);
    assert!(rt; is_count(rt.alloc(), 96, Err(many))?);
    Ok(())
}
