//! The first node that is not even.

ghost use Rattle.std.specs.Prelude.{◌≡◌, ◌≤◌, ◌<◌, All, MatchResult, length};
ghost use Rattle.search_arc_counts.specs.roster_split.Counts.{sum_at};
ghost use Rattle.search_arc_counts.specs.roster_split.Evens.{HasCounts, AreAllEven, IsUneven};

use crate::roster_split::fault::SplitFault;
use tree_graph::Graph;

// Returns the sum of the counts at these places.
pub fn sum_at(places: &[u32], counts: &[u32]) -> u64
    requires within { All (λ p. p < length counts.now) places.now }
    requires few { length places.now ≤ 100000 }
    ensures { result ≡ sum_at counts.now places.now }
{
    let mut sum = 0;
    for &place in places {
        sum += u64::from(counts[place as usize]);
    }
    sum
}

/// Fails at the first node other than the root that is made and used by different sums of counts.
///
/// # Errors
///
/// `Unbalanced` with the first such node and its two sums.
pub fn check_balance(graph: &Graph, counts: &[u32]) -> Result<(), SplitFault>
    requires { HasCounts graph.now counts.now }
    ensures { (has : HasCounts graph.now counts.now) → MatchResult result
        (λ _. AreAllEven has.g graph.now counts.now) (IsUneven has.g graph.now counts.now) }
{
    for node in 0..graph.nodes() {
        if graph.root() == Some(node) {
            continue;
        }
        let made = sum_at(graph.makers(node), counts);
        let used = sum_at(graph.users(node), counts);
        if made != used {
            return Err(SplitFault::Unbalanced { node, made, used });
        }
    }
    Ok(())
}
