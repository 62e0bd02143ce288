//! One tree, taken from what is left.

ghost use Rattle.std.specs.Prelude.{ℕ, ◌≡◌, ◌≤◌, ◌<◌, ◌++◌, Some, All, IfOk, OnOk, length, slice_get, slice_index};
ghost use Rattle.model_rosters.specs.arc_laws.AtNodes.{steps_of};
ghost use Rattle.search_arc_counts.specs.roster_split.Taking.{AsksArc, TakesArc, AsksTree, TakesTree};
ghost use Rattle.search_arc_counts.specs.roster_split.Stacks.{pushed_kid};

use model_rosters::{ArcKey, List, Memory, Step};
use std::alloc::Global;
use tree_graph::{Graph, Kid};

// Returns the first of these places where something is left.
fn first_left(places: &[u32], left: &[u32]) -> u32
    requires within { All (λ p. p < length left.now) places.now }
    requires some { (k : ℕ) × (k < length places.now)
        × (1 ≤ slice_index left.now (slice_index places.now k)) }
    ensures found { (k : ℕ) × (slice_get places.now k ≡ Some result) }
    ensures left { 1 ≤ slice_index left.now result }
{
    let mut at = 0;
    while left[places[at] as usize] == 0 {
        at += 1;
    }
    places[at]
}

// Takes an arc that makes the node once from what is left, and returns its number.
fn take_arc(graph: &Graph, left: &mut [u32], node: u32) -> u32
    requires { AsksArc graph.now left.old node }
    ensures { (asked : AsksArc graph.now left.old node)
        → TakesArc asked.g graph.now asked.node left.old left.new result }
{
    let arc = first_left(graph.makers(node), left);
    left[arc as usize] -= 1;
    arc
}

// Adds the rule use of an arc of a whole right side; other arcs have none.
fn write_step(arc: &ArcKey, steps: &mut List<Step>) -> Result<(), Memory>
    ensures { OnOk result (steps.new ≡ steps.old ++ steps_of arc.now) }
{
    if arc.suffix == 0 {
        steps.push(Step {
            rule: arc.rule,
            start: arc.start,
            len: arc.len,
        })?;
    }
    Ok(())
}

// Opens a node; a letter and nothing have nothing below them.
fn push_kid(stack: &mut Vec<u32>, kid: Kid) -> Result<(), Memory>
    ensures { OnOk result (stack.new.items ≡ pushed_kid stack.old.items kid) }
{
    if let Kid::Node(node) = kid {
        stack.push(node)?;
    }
    Ok(())
}

/// Takes a tree of the day from what is left, and returns its rule uses in preorder. The stack is for
/// the nodes that are open, whatever it holds before.
///
/// # Errors
///
/// `Memory` where memory runs out; nothing is said of what is left then.
pub fn take_tree(
    alloc: Global,
    graph: &Graph,
    root: u32,
    left: &mut [u32],
    stack: &mut Vec<u32>,
) -> Result<List<Step>, Memory>
    requires { AsksTree graph.now left.old root }
    ensures { IfOk result (λ steps. (asked : AsksTree graph.now left.old root)
        → TakesTree asked.g graph.now asked.pending left.old left.new steps) }
{
    let mut steps = List::new(alloc);
    stack.clear();
    push_kid(stack, Kid::Node(root))?;
    while let Some(node) = stack.pop() {
        let arc = take_arc(graph, left, node);
        write_step(&graph.arcs()[arc as usize], &mut steps)?;
        let (first, rest) = graph.children(arc);
        push_kid(stack, rest)?;
        push_kid(stack, first)?;
    }
    Ok(steps)
}
