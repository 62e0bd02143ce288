//! The counts of two different trees split into them, and counts of no trees
//! (`search_arc_counts::roster_split`).

ghost use Rattle.std.specs.Prelude.{◌≡◌, length};
ghost use Rattle.tree_graph.specs.Graphs.{HasGrammar};

use crate::days::block_graph;
use model_rosters::{ArcKey, List, Step};
use search_arc_counts::{SplitFault, split};
use std::alloc::Global;
use std::test::Fail;
use tree_graph::Graph;

/// An arc as it is written: rule, suffix, start, length and part.
type Arc = (u8, u8, u8, u8, u8);

/// The arcs of the tree of `.aaa`, and then those of the tree of `aaa.`, on the day of one block. Both trees
/// are below the root.
const ARCS: [Arc; 12] = [
    (2, 0, 1, 4, 1),
    (8, 0, 1, 1, 1),
    (5, 0, 2, 3, 3),
    (7, 0, 2, 3, 1),
    (7, 0, 3, 2, 1),
    (6, 0, 4, 1, 1),
    (3, 0, 1, 4, 3),
    (5, 0, 1, 3, 3),
    (7, 0, 1, 3, 1),
    (7, 0, 2, 2, 1),
    (6, 0, 3, 1, 1),
    (8, 0, 4, 1, 1),
];

/// The rule uses of the two trees: rule, start and length.
const TREES: [[(u8, u8, u8); 6]; 2] = [
    [
        (2, 1, 4),
        (8, 1, 1),
        (5, 2, 3),
        (7, 2, 3),
        (7, 3, 2),
        (6, 4, 1),
    ],
    [
        (3, 1, 4),
        (5, 1, 3),
        (7, 1, 3),
        (7, 2, 2),
        (6, 3, 1),
        (8, 4, 1),
    ],
];

fn is_arc(key: &ArcKey, arc: &Arc) -> bool {
    (key.rule, key.suffix, key.start, key.len, key.part) == *arc
}

/// A count of 1 for each of these arcs of the graph, and of 0 for the others.
fn ones(alloc: Global, graph: &Graph, arcs: &[Arc]) -> Result<List<u32>, Fail> {
    let mut counts = List::new(alloc);
    for key in graph.arcs() {
        counts.push(u32::from(arcs.iter().any(|arc| is_arc(key, arc))))?;
    }
    Ok(counts)
}

fn is_tree(steps: &[Step], uses: &[(u8, u8, u8)]) -> bool {
    steps.len() == uses.len()
        && steps
            .iter()
            .zip(uses)
            .all(|(step, used)| (step.rule, step.start, step.len) == *used)
}

/// Whether these are the two trees, in either order.
fn are_both(first: &[Step], second: &[Step]) -> bool {
    is_tree(first, &TREES[0]) && is_tree(second, &TREES[1])
        || is_tree(first, &TREES[1]) && is_tree(second, &TREES[0])
}

fn are_the_trees(trees: &[List<Step>]) -> bool {
    match trees {
        [first, second] => are_both(first.as_slice(), second.as_slice()),
        _ => false,
    }
}

/// Whether the counts are those of the two trees.
fn splits_in_two(alloc: Global, graph: &Graph, counts: &[u32]) -> bool
    requires graph { HasGrammar graph.now }
    requires counts { length counts.now ≡ length graph.now.arcs }
{
    match split(alloc, graph, counts) {
        Ok(trees) => are_the_trees(trees.as_slice()),
        Err(_) => false,
    }
}

/// Whether the arcs of both trees are split into them.
fn are_split(alloc: Global, graph: &Graph) -> Result<bool, Fail>
    requires { HasGrammar graph.now }
{
    let counts = ones(alloc, graph, &ARCS)?;
    Ok(counts.len() == graph.arcs().len() && splits_in_two(alloc, graph, counts.as_slice()))
}

/// Whether one arc uses a node that nothing makes.
fn is_uneven(alloc: Global, graph: &Graph, counts: &[u32]) -> bool
    requires graph { HasGrammar graph.now }
    requires counts { length counts.now ≡ length graph.now.arcs }
{
    match split(alloc, graph, counts) {
        Ok(_) | Err(SplitFault::Memory) => false,
        Err(SplitFault::Unbalanced { made, used, .. }) => made == 0 && used == 1,
    }
}

/// Whether the first arc alone is refused so.
fn is_one_uneven(alloc: Global, graph: &Graph) -> Result<bool, Fail>
    requires { HasGrammar graph.now }
{
    let counts = ones(alloc, graph, &ARCS[..1])?;
    Ok(counts.len() == graph.arcs().len() && is_uneven(alloc, graph, counts.as_slice()))
}

fn tells_of_blocks(alloc: Global, graph: &Graph) -> Result<bool, Fail>
    requires { HasGrammar graph.now }
{
    Ok(are_split(alloc, graph)? && is_one_uneven(alloc, graph)?)
}

#[test]
fn counts_of_two_trees(rt: HostRuntime) -> Result<(), Fail> {
    let graph = block_graph(rt.alloc())?;
    let are_told = tells_of_blocks(rt.alloc(), &graph);
    drop(graph);
    assert!(rt; are_told?);
    Ok(())
}
