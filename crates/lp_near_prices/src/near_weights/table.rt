//! The rows, and what the trees bring to them.

ghost use Rattle.model_rosters.specs.SoundInstance.{IsSoundInstance};
ghost use Rattle.lp_master_rows.specs.NodeRows.{AreRows};

use lp_fractions::Place;
use lp_master_rows::{NodeRows, artificial_price};
use model_rosters::{Cut, Instance, List, Memory};
use std::alloc::Global;
use tree_pool::Pool;

/// The number 1 in the units of weights, 2^-56.
pub(crate) const ONE: i128 = 1 << 56;

/// How a row is met.
#[derive(Clone, Copy, Debug, PartialEq, Eq, Drop)]
pub(crate) enum Bound {
    /// Units missing and units beyond have their costs.
    About,
    /// At least its right side: each unit missing has the artificial cost.
    AtLeast,
    /// At most its right side.
    AtMost,
}

/// A row, and what the trees bring to it.
#[derive(Clone, Copy, Drop)]
pub(crate) struct RowBalance {
    pub(crate) bound: Bound,
    /// Its right side, in the units of weights.
    pub(crate) right: i128,
    /// The sum of the weights of the trees that bring to it.
    pub(crate) sum: i128,
    /// What a unit missing costs.
    pub(crate) missing: i64,
}

impl RowBalance {
    /// Returns what it lacks in a raising pass, or has too much in another one.
    pub(crate) fn off(&self, is_raising: bool) -> i128 {
        if is_raising {
            self.right.saturating_sub(self.sum)
        } else {
            self.sum.saturating_sub(self.right)
        }
    }

    /// Whether it is to be mended in such a pass.
    pub(crate) fn is_mended(&self, is_raising: bool) -> bool {
        let bound = if is_raising {
            Bound::AtLeast
        } else {
            Bound::AtMost
        };
        self.bound == bound && self.off(is_raising) > 0
    }

    /// Whether a step by so much in such a pass harms it.
    pub(crate) fn is_harmed(&self, is_raising: bool, amount: i128) -> bool {
        let (bound, room) = if is_raising {
            (Bound::AtMost, self.right.saturating_sub(self.sum))
        } else {
            (Bound::AtLeast, self.sum.saturating_sub(self.right))
        };
        self.bound == bound && room < amount
    }
}

/// Returns how a row is met whose units have these costs.
fn bound_of(missing: i64, beyond: Option<i64>, artificial: i64) -> Bound {
    match beyond {
        None => Bound::AtMost,
        Some(_) if missing == artificial => Bound::AtLeast,
        Some(_) => Bound::About,
    }
}

/// Returns the rows of a node, to which no tree brings anything.
///
/// # Errors
///
/// `Memory` where memory runs out; nothing is kept then.
pub(crate) fn lines_of(
    alloc: Global,
    instance: &Instance,
    cuts: &[Cut],
    rows: &NodeRows,
) -> Result<Vec<RowBalance>, Memory>
    requires sound { IsSoundInstance instance.now }
    requires rows { AreRows instance.now cuts.now rows.now }
{
    let artificial = artificial_price(instance);
    let right = rows.right();
    let mut lines = Vec::with_capacity(alloc, right.len())?;
    for row in 0..right.len() {
        let missing = rows.missing_cost(row, artificial);
        let line = RowBalance {
            bound: bound_of(missing, rows.beyond_cost(row), artificial),
            right: i128::from(right[row]).saturating_mul(ONE),
            sum: 0,
            missing,
        };
        lines.push(line)?;
    }
    Ok(lines)
}

/// A tree of the basis.
#[derive(Clone, Copy, Drop)]
pub(crate) struct Weighted {
    /// Its number in the pool.
    pub(crate) tree: usize,
    /// Its weight, at least 0.
    pub(crate) weight: i128,
    /// Where its rows begin in the list of all.
    first: usize,
    /// Where they end.
    end: usize,
}

/// The trees of a basis with their weights, in the rows that have to be mended.
#[derive(Drop)]
pub(crate) struct Table {
    pub(crate) lines: Vec<RowBalance>,
    pub(crate) trees: Vec<Weighted>,
    /// The rows of all trees, one tree after another, without those that are met about.
    rows: Vec<u32>,
}

/// Returns the rows between two places.
fn rows_between(rows: &[u32], first: usize, end: usize) -> &[u32] {
    match rows.get(first..end) {
        Some(rows) => rows,
        None => &[],
    }
}

/// Adds to the sum of a row.
fn add_at(lines: &mut [RowBalance], row: u32, amount: i128) {
    if let Some(line) = lines.get_mut(row as usize) {
        line.sum = line.sum.saturating_add(amount);
    }
}

/// Whether a row has to be mended where it is off its right side.
fn is_bound(lines: &[RowBalance], row: u32) -> bool {
    match lines.get(row as usize) {
        Some(line) => line.bound != Bound::About,
        None => false,
    }
}

impl Table {
    /// Returns the rows without a tree.
    pub(crate) fn new(alloc: Global, lines: Vec<RowBalance>) -> Table {
        Table {
            lines,
            trees: Vec::new(alloc),
            rows: Vec::new(alloc),
        }
    }

    /// Returns the rows of a tree.
    pub(crate) fn rows_of(&self, tree: &Weighted) -> &[u32] {
        rows_between(self.rows.as_slice(), tree.first, tree.end)
    }

    /// Adds the rows at these places, as far as they have to be mended, with a weight.
    fn add_rows(&mut self, places: &[Place], weight: i128) -> Result<(), Memory> {
        for place in places {
            if is_bound(self.lines.as_slice(), place.row) {
                add_at(self.lines.as_mut_slice(), place.row, weight);
                self.rows.push(place.row)?;
            }
        }
        Ok(())
    }

    /// Adds a tree with its weight, which brings to the rows at these places.
    ///
    /// # Errors
    ///
    /// `Memory` where memory runs out; nothing is said of the table then.
    pub(crate) fn add_tree(
        &mut self,
        tree: usize,
        weight: i128,
        places: &[Place],
    ) -> Result<(), Memory> {
        let first = self.rows.len();
        self.add_rows(places, weight)?;
        let tree = Weighted {
            tree,
            weight,
            first,
            end: self.rows.len(),
        };
        self.trees.push(tree)?;
        Ok(())
    }

    /// Changes the weight of the tree at a place by an amount.
    pub(crate) fn change(&mut self, place: usize, amount: i128) {
        let Some(tree) = self.trees.as_mut_slice().get_mut(place) else {
            return;
        };
        tree.weight = tree.weight.saturating_add(amount);
        for row in rows_between(self.rows.as_slice(), tree.first, tree.end) {
            add_at(self.lines.as_mut_slice(), *row, amount);
        }
    }
}

/// The trees of a basis and their weights.
#[derive(Clone, Copy, Drop)]
pub(crate) struct Basis<'a> {
    /// The tree of the pool at each place, where there is one.
    pub(crate) trees: &'a [Option<usize>],
    /// The weight at each place.
    pub(crate) values: &'a [i128],
}

/// Returns a table of the trees of a basis, each with its weight, or 0 where that is negative.
///
/// # Errors
///
/// `Memory` where memory runs out; nothing is kept then.
pub(crate) fn table_of(
    alloc: Global,
    lines: Vec<RowBalance>,
    cuts: &[Cut],
    rows: &NodeRows,
    pool: &Pool,
    basis: Basis<'_>,
) -> Result<Table, Memory> {
    let mut table = Table::new(alloc, lines);
    let mut room = List::new(alloc);
    for (tree, value) in basis.trees.iter().zip(basis.values) {
        if let Some(tree) = *tree {
            if tree < pool.len() {
                room = rows.put_places(room, cuts, pool, tree)?;
                table.add_tree(tree, (*value).max(0), room.as_slice())?;
            }
        }
    }
    Ok(table)
}
