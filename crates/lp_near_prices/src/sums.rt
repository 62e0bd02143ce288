//! What the trees bring to each row.

ghost use Rattle.std.specs.Prelude.{ℕ, ◌≡◌, ◌≤◌, ◌<◌, ◌+◌, ◌^◌, Some, List as Items, All, IfOk, length, slice_get};
ghost use Rattle.model_rosters.specs.Folds.{Each};
ghost use Rattle.model_rosters.specs.Limits.{IsSmallCut};
ghost use Rattle.model_rosters.specs.Trees.{Parts};
ghost use Rattle.law_bounds.specs.linear_programs.Solution.{Weighted};
ghost use Rattle.law_bounds.specs.master_laws.Rows.{rows_of};
ghost use Rattle.lp_master_rows.specs.NodeRows.{AreRows};
ghost use Rattle.lp_near_prices.specs.Listed.{IsListed, AreWeightsOf};
ghost use Rattle.lp_near_prices.specs.Sums.{part, added, AreSums, IsRaised};
ghost use Rattle.lp_fractions.specs.pivot_rows.Columns.{AreWithin};
ghost use Rattle.tree_pool.specs.Pools.{PoolTree, IsPool, IsPoolTree};

use crate::listed::ListedTree;
use lp_fractions::Place;
use lp_master_rows::NodeRows;
use model_rosters::{Cut, Instance, List, Memory};
use std::alloc::Global;
use tree_pool::Pool;

/// Returns the weight where the entry is 1, and else 0.
fn part_of(place: &Place, weight: u64) -> u64
    ensures value { result ≡ part weight place.now.value }
    ensures most { result ≤ weight }
{
    if place.value == 1 { weight } else { 0 }
}

/// Adds a weight to the sum of each row where a column has the entry 1.
fn add_weight(sums: &mut [u128], places: &[Place], weight: u64)
    requires within { AreWithin (length sums.old) places.now }
    requires small { All (λ s. s ≤ 2 ^ 100) sums.old }
    requires weight { weight ≤ 2 ^ 62 }
    ensures { sums.new ≡ added weight sums.old places.now }
{
    for place in places {
        sums[place.row as usize] += u128::from(part_of(place, weight));
    }
}

/// Adds what a listed tree brings to each row, and returns the list that its entries stood in.
fn add_tree(
    room: List<Place>,
    instance: &Instance,
    cuts: &[Cut],
    rows: &NodeRows,
    pool: &Pool,
    tree: &ListedTree,
    sums: &mut [u128],
) -> Result<List<Place>, Memory>
    requires cuts { Each IsSmallCut cuts.now }
    requires rows { AreRows instance.now cuts.now rows.now }
    requires pool { IsPool instance.now.grammar pool.now }
    requires listed { IsListed (length pool.now) tree.now }
    requires count { length sums.old ≡ length (rows_of instance.now cuts.now) }
    requires small { All (λ s. s ≤ 2 ^ 100) sums.old }
    ensures count { length sums.new ≡ length sums.old }
    ensures small { IfOk result (λ _. (m : ℕ) → All (λ s. s ≤ m) sums.old →
        All (λ s. s ≤ m + 2 ^ 62) sums.new) }
    ensures raised { IfOk result (λ _. (t : Parts) (x : PoolTree) →
        slice_get pool.now tree.now.column ≡ Some x →
        IsPoolTree instance.now.grammar t x →
        IsRaised t tree.now.weight (rows_of instance.now cuts.now) sums.old sums.new) }
{
    let places = rows.put_places(room, cuts, pool, tree.column)?;
    add_weight(sums, places.as_slice(), tree.weight);
    Ok(places)
}

/// Returns what the listed trees bring to each row.
///
/// # Errors
///
/// `Memory` where memory runs out; nothing is kept then.
pub(crate) fn sums_of(
    alloc: Global,
    instance: &Instance,
    cuts: &[Cut],
    rows: &NodeRows,
    pool: &Pool,
    listed: &[ListedTree],
) -> Result<Vec<u128>, Memory>
    requires cuts { Each IsSmallCut cuts.now }
    requires rows { AreRows instance.now cuts.now rows.now }
    requires pool { IsPool instance.now.grammar pool.now }
    requires listed { All (IsListed (length pool.now)) listed.now }
    requires few { length listed.now ≤ 2 ^ 13 }
    ensures count { IfOk result (λ sums. length sums.items ≡ length (rows_of instance.now cuts.now)) }
    ensures small { IfOk result (λ sums. All (λ s. s ≤ 2 ^ 75) sums.items) }
    ensures sums { IfOk result (λ sums. (ws : Items (Weighted Parts)) →
        AreWeightsOf instance.now.grammar pool.now listed.now ws →
        AreSums ws (rows_of instance.now cuts.now) sums.items) }
{
    let mut sums = vec![in alloc; 0; rows.right().len()]?;
    let mut room = List::new(alloc);
    for tree in listed {
        room = add_tree(room, instance, cuts, rows, pool, tree, sums.as_mut_slice())?;
    }
    Ok(sums)
}
