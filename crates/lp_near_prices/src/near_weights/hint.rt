//! The listed trees and the prices.

ghost use Rattle.std.specs.Prelude.{◌≤◌, ◌^◌, All, IfOk, length};
ghost use Rattle.model_rosters.specs.SoundInstance.{IsSoundInstance};
ghost use Rattle.lp_master_rows.specs.NodeRows.{AreRows};
ghost use Rattle.lp_near_prices.specs.Listed.{IsListed};

use crate::ListedTree;
use crate::near_weights::table::{Basis, Bound, ONE, RowBalance, Weighted, lines_of, table_of};
use lp_float_programs::{FloatProgram, Key};
use lp_master_rows::NodeRows;
use model_rosters::{Cut, Instance, List, Memory};
use std::alloc::Global;
use tree_pool::Pool;

/// Weighted trees and prices that may show each other best.
#[derive(Drop)]
pub struct NearHint {
    /// Trees of the pool with their weights above 0, in the order of their numbers.
    pub listed: List<ListedTree>,
    /// The prices of the rows, in units of 2^-40.
    pub y: List<i128>,
}

/// From this value on an artificial column counts: 2^-16.
const COUNTED: i128 = ONE >> 16;

/// The greatest weight of a tree, 64 in units of 2^-56.
const MOST: i128 = ONE << 6;

/// The most trees that are listed.
const TREES: usize = 8192;

/// Returns a weight as a number of 64 bits, at most the greatest one.
fn bounded(weight: i128) -> u64
    ensures { result ≤ 2 ^ 62 }
{
    match u64::try_from(weight.min(MOST)) {
        Ok(weight) => weight.min(1 << 62),
        Err(_) => 0,
    }
}

/// Adds to the weight of each tree that of the equal one before it.
fn merge(trees: &mut [Weighted]) {
    let mut last: Option<Weighted> = None;
    for tree in trees.iter_mut() {
        if let Some(before) = last {
            if before.tree == tree.tree {
                tree.weight = tree.weight.saturating_add(before.weight);
            }
        }
        last = Some(*tree);
    }
}

/// Whether the next tree is another one, or there is none.
fn is_last(trees: &[Weighted], place: usize) -> bool {
    match (trees.get(place), trees.get(place.saturating_add(1))) {
        (Some(tree), Some(next)) => tree.tree != next.tree,
        _ => true,
    }
}

/// Lists a tree with its weight, if that is above 0 and the tree is one of so many.
fn list_tree(listed: &mut List<ListedTree>, count: usize, tree: &Weighted) -> Result<(), Memory>
    requires listed { All (IsListed count) listed.old }
    requires few { length listed.old ≤ 2 ^ 13 }
    ensures listed { IfOk result (λ _. All (IsListed count) listed.new) }
    ensures few { IfOk result (λ _. length listed.new ≤ 2 ^ 13) }
{
    let weight = bounded(tree.weight);
    if weight > 0 && tree.tree < count && listed.len() < TREES {
        listed.push(ListedTree {
            column: tree.tree,
            weight,
        })?;
    }
    Ok(())
}

/// Lists trees that stand in the order of their numbers, as far as they are among so many: each once, with
/// the weight of the last of equal ones.
fn list_trees(alloc: Global, count: usize, trees: &[Weighted]) -> Result<List<ListedTree>, Memory>
    ensures listed { IfOk result (λ listed. All (IsListed count) listed) }
    ensures few { IfOk result (λ listed. length listed ≤ 2 ^ 13) }
{
    let mut listed = List::new(alloc);
    for (place, tree) in trees.iter().enumerate() {
        if is_last(trees, place) {
            list_tree(&mut listed, count, tree)?;
        }
    }
    Ok(listed)
}

/// Lists trees, which are ordered by their numbers.
fn list_sorted(
    alloc: Global,
    count: usize,
    trees: &mut [Weighted],
) -> Result<List<ListedTree>, Memory>
    ensures listed { IfOk result (λ listed. All (IsListed count) listed) }
    ensures few { IfOk result (λ listed. length listed ≤ 2 ^ 13) }
{
    trees.sort_unstable_by_key(|tree| tree.tree);
    merge(trees);
    list_trees(alloc, count, trees)
}

/// Whether what is missing in a row has the artificial cost.
fn is_artificial(lines: &[RowBalance], row: usize) -> bool {
    match lines.get(row) {
        Some(line) => line.bound == Bound::AtLeast,
        None => false,
    }
}

/// Whether the column at a place of the basis is an artificial one.
fn is_artificial_at(float_program: &FloatProgram, lines: &[RowBalance], place: usize) -> bool {
    match float_program.basic(place) {
        Some(Key::Missing(row)) => is_artificial(lines, row),
        _ => false,
    }
}

/// Whether an artificial column counts among the values of the basis.
fn has_artificial(float_program: &FloatProgram, lines: &[RowBalance], values: &[i128]) -> bool {
    for (place, value) in values.iter().enumerate() {
        if *value > COUNTED && is_artificial_at(float_program, lines, place) {
            return true;
        }
    }
    false
}

/// Returns what units missing in the rows cost.
fn missing_of(alloc: Global, lines: &[RowBalance]) -> Result<List<i64>, Memory> {
    let mut missing = List::new(alloc);
    for line in lines {
        missing.push(line.missing)?;
    }
    Ok(missing)
}

/// Returns the prices of the rows, with the true artificial cost where an artificial column counts.
fn prices_of(
    alloc: Global,
    float_program: &FloatProgram,
    lines: &[RowBalance],
    values: &[i128],
) -> Result<List<i128>, Memory> {
    if !has_artificial(float_program, lines, values) {
        return float_program.refined_prices(alloc, &[]);
    }
    let missing = missing_of(alloc, lines)?;
    float_program.refined_prices(alloc, missing.as_slice())
}

/// Returns the trees in the basis of a float program with weights that exceed no row of at most its right
/// side, and the prices of its rows. `trees` has the tree of the pool at each place of the basis, where there
/// is one.
///
/// They are right up to what floats lost, and nothing rests on them.
///
/// # Errors
///
/// `Memory` where memory runs out.
pub fn near_hint(
    alloc: Global,
    instance: &Instance,
    cuts: &[Cut],
    rows: &NodeRows,
    pool: &Pool,
    trees: &[Option<usize>],
    float_program: &FloatProgram,
) -> Result<NearHint, Memory>
    requires sound { IsSoundInstance instance.now }
    requires rows { AreRows instance.now cuts.now rows.now }
    ensures listed { IfOk result (λ hint. All (IsListed (length pool.now)) hint.listed) }
    ensures few { IfOk result (λ hint. length hint.listed ≤ 2 ^ 13) }
{
    let values = float_program.refined_values(alloc)?;
    let values = values.as_slice();
    let lines = lines_of(alloc, instance, cuts, rows)?;
    let y = prices_of(alloc, float_program, lines.as_slice(), values)?;
    let basis = Basis { trees, values };
    let mut table = table_of(alloc, lines, cuts, rows, pool, basis)?;
    table.mend();
    let listed = list_sorted(alloc, pool.len(), table.trees.as_mut_slice())?;
    Ok(NearHint { listed, y })
}
