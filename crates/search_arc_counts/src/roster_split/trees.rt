//! All trees of balanced counts, taken one by one.

ghost use Rattle.std.specs.Prelude.{◌≡◌, IfOk, MatchResult, OnOk, length};
ghost use Rattle.model_rosters.specs.declared.grammar.Grammar.{Grammar as Rules};
ghost use Rattle.model_rosters.specs.Sound.{IsSound};
ghost use Rattle.tree_graph.specs.Graphs.{HasGrammar, IsGraph};
ghost use Rattle.search_arc_counts.specs.roster_split.Evens.{AreAllEven, IsFault};
ghost use Rattle.search_arc_counts.specs.roster_split.Splits.{HasBalance, IsSplit};

use crate::roster_split::balance::{check_balance, sum_at};
use crate::roster_split::fault::SplitFault;
use crate::roster_split::take::take_tree;
use model_rosters::{List, Memory, Step};
use std::alloc::Global;
use tree_graph::Graph;

// Returns trees of the day that have these balanced counts: the rule uses of each in preorder.
fn take_trees(alloc: Global, graph: &Graph, counts: &[u32]) -> Result<List<List<Step>>, Memory>
    requires { HasBalance graph.now counts.now }
    ensures { IfOk result (λ trees. (has : HasBalance graph.now counts.now)
        → IsSplit has.g graph.now counts.now trees) }
{
    let mut trees = List::new(alloc);
    let Some(root) = graph.root() else {
        return Ok(trees);
    };
    let mut left = Vec::from_slice(alloc, counts)?;
    let mut stack = Vec::new(alloc);
    let number = sum_at(graph.makers(root), counts);
    for _ in 0..number {
        trees.push(take_tree(alloc, graph, root, left.as_mut_slice(), &mut stack)?)?;
    }
    Ok(trees)
}

/// Returns trees of the day whose arcs have exactly these counts, one for each arc of the graph by its
/// number, from 0 to 4,294,967,295: as many trees as the sum of the counts of the arcs that make the
/// root, each as its rule uses in preorder. Where the day has no tree, there is none.
///
/// # Errors
///
/// `Unbalanced` exactly where some node other than the root is made and used by different sums of
/// counts, with the number of the first such node and its two sums, and `Memory` where memory runs out.
pub fn split(alloc: Global, graph: &Graph, counts: &[u32]) -> Result<List<List<Step>>, SplitFault>
    requires graph { HasGrammar graph.now }
    requires counts { length counts.now ≡ length graph.now.arcs }
    ensures trees { (g : Rules) → IsSound g → IsGraph g graph.now
        → MatchResult result (IsSplit g graph.now counts.now) (IsFault g graph.now counts.now) }
    ensures even { (g : Rules) → IsSound g → IsGraph g graph.now
        → OnOk result (AreAllEven g graph.now counts.now) }
{
    check_balance(graph, counts)?;
    Ok(take_trees(alloc, graph, counts)?)
}
