//! The weights of listed trees.

ghost use Rattle.std.specs.Prelude.{◌≡◌, ◌≤◌, ◌<◌, ◌^◌, All, IsTrue, IfOk};
ghost use Rattle.lp_near_prices.specs.declared.listed.ListedTree.{ListedTree as Tree};
ghost use Rattle.lp_near_prices.specs.Listed.{IsListed};
ghost use Rattle.search_node_columns.specs.Weights.{IsShare};
ghost use Rattle.search_masters.specs.Listed.{AscendFrom, MayBeListed, AreSharesOf};

use lp_fractions::Frac;
use lp_near_prices::ListedTree;
use model_rosters::{List, Memory};
use search_node_columns::Weight;
use std::alloc::Global;

/// The most trees that are listed.
const MOST_LISTED: usize = 8_192;

/// The denominator of weights, 2^56.
const UNIT: i128 = 72_057_594_037_927_936;

/// Says whether a tree is one of so many, with a weight of at most 64.
fn is_listed(tree: &ListedTree, trees: usize) -> bool
    ensures { IsTrue result → IsListed trees tree.now }
{
    tree.column < trees && tree.weight <= 1 << 62
}

/// Says whether each is one of so many, with a weight of at most 64.
fn are_listed(listed: &[ListedTree], trees: usize) -> bool
    ensures { IsTrue result → All (IsListed trees) listed.now }
{
    listed.iter().all(|tree| is_listed(tree, trees))
}

/// Says whether each has a weight above 0.
fn have_weight(listed: &[ListedTree]) -> bool
    ensures { IsTrue result → All (λ (l : Tree). 0 < l.weight) listed.now }
{
    listed.iter().all(|tree| 0 < tree.weight)
}

/// Says whether their numbers rise, and are below a count.
fn ascend(listed: &[ListedTree], trees: usize) -> bool
    ensures { IsTrue result → AscendFrom 0 listed.now }
{
    let mut next = 0;
    for tree in listed {
        if tree.column < next || tree.column >= trees {
            return false;
        }
        next = tree.column + 1;
    }
    true
}

/// Says whether trees with weights may be taken for some of so many: not too many, by rising numbers, each
/// with a weight above 0 and at most 64.
pub(crate) fn may_be_listed(listed: &[ListedTree], trees: usize) -> bool
    ensures { IsTrue result → MayBeListed trees listed.now }
{
    listed.len() <= MOST_LISTED
        && are_listed(listed, trees)
        && have_weight(listed)
        && ascend(listed, trees)
}

/// Returns the weight of a listed tree as a fraction.
fn share_of(weight: u64) -> Frac
    requires { weight ≤ 2 ^ 62 }
    ensures { IsShare result weight (2 ^ 56) }
{
    Frac::new(i128::from(weight), UNIT)
}

/// Returns the weights of listed trees as fractions, in their order.
///
/// # Errors
///
/// `Memory` where memory runs out; nothing is kept then.
pub(crate) fn weights_of(alloc: Global, listed: &[ListedTree]) -> Result<List<Weight>, Memory>
    requires { All (λ (l : Tree). l.weight ≤ 2 ^ 62) listed.now }
    ensures { IfOk result (AreSharesOf listed.now) }
{
    let mut weights = List::new(alloc);
    for tree in listed {
        weights.push(Weight {
            column: tree.column,
            x: share_of(tree.weight),
        })?;
    }
    Ok(weights)
}
