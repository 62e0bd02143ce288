//! What a column generation begins with: trees, and a basis that is kept.

use crate::bases::Basis;
use crate::steering::Steering;
use lp_float_programs::Key;
use lp_master_rows::{NodeRows, NodeTask};
use model_rosters::{Cut, List, Memory, Side};
use std::alloc::Global;
use tree_pool::Pool;

/// How many trees of the pool a column generation begins with, for each row, where no basis is known: the
/// last ones.
const LAST: usize = 6;

/// How many trees it begins with, for each row, where one is: the best ones at the prices there.
const BEST: usize = 2;

/// What a column generation begins with.
#[derive(Drop)]
pub(crate) struct Start {
    /// Trees of the pool, those of the basis first.
    pub(crate) trees: List<usize>,
    /// The basis, by the keys that its columns have in the float program; none where it is not known.
    pub(crate) keys: List<Key>,
    /// Prices of the rows that may be good ones, in units of 2^-24; none where nothing is known of them.
    pub(crate) prices: List<i128>,
    /// Whether the column generation is careful from its begin on, as that was whose basis it is.
    pub(crate) is_careful: bool,
}

/// Returns trees, and behind them others that are not among them.
///
/// # Errors
///
/// `Memory` where memory runs out; nothing is kept then.
pub(crate) fn joined(
    alloc: Global,
    first: &[usize],
    others: &[usize],
) -> Result<List<usize>, Memory> {
    let mut trees = List::new(alloc);
    trees.extend_from_slice(first)?;
    for tree in others {
        if !first.contains(tree) {
            trees.push(*tree)?;
        }
    }
    Ok(trees)
}

/// Returns a copy of prices.
///
/// # Errors
///
/// `Memory` where memory runs out; nothing is kept then.
pub(crate) fn copied(alloc: Global, prices: &[i128]) -> Result<List<i128>, Memory> {
    let mut copy = List::new(alloc);
    copy.extend_from_slice(prices)?;
    Ok(copy)
}

/// Returns the last trees of a pool of so many, so many of them.
fn last_trees(alloc: Global, count: usize, last: usize) -> Result<List<usize>, Memory> {
    let mut trees = List::new(alloc);
    for tree in count.saturating_sub(last)..count {
        trees.push(tree)?;
    }
    Ok(trees)
}

/// Adds the columns of rows below a number.
fn add_own(keys: &mut List<Key>, own: &[Key], end: usize) -> Result<(), Memory> {
    for key in own {
        let is_there = match *key {
            Key::Missing(row) | Key::Beyond(row) => row < end,
            Key::Listed(_) => false,
        };
        if is_there {
            keys.push(*key)?;
        }
    }
    Ok(())
}

/// Adds columns of the rows of further cuts, from a row on, at which prices of 0 are lawful.
fn add_further(keys: &mut List<Key>, cuts: &[Cut], first: usize) -> Result<(), Memory> {
    let mut row = first;
    for cut in cuts {
        let key = match cut.side {
            Side::Low => Key::Missing(row),
            Side::High => Key::Beyond(row),
        };
        keys.push(key)?;
        row = row.saturating_add(1);
    }
    Ok(())
}

/// Returns the keys of a basis of a node above, with columns of the rows of the cuts that it lacks; there are
/// so many rows in all.
fn keys_of(alloc: Global, cuts: &[Cut], rows: usize, basis: &Basis) -> Result<List<Key>, Memory> {
    let further = cuts.get(basis.cuts.len()..).unwrap_or(&[]);
    let end = rows.saturating_sub(further.len());
    let mut keys = List::new(alloc);
    add_own(&mut keys, basis.own.as_slice(), end)?;
    add_further(&mut keys, further, end)?;
    for tree in 0..basis.trees.len() {
        keys.push(Key::Listed(tree))?;
    }
    Ok(keys)
}

/// Returns what a column generation begins with from the basis of a node above.
fn start_from(alloc: Global, task: &NodeTask, pool: &Pool, basis: &Basis) -> Result<Start, Memory> {
    let (cuts, rows) = (task.cuts, task.rows);
    let count = rows.right().len();
    let most = count.saturating_mul(BEST);
    let best = rows.best_trees(alloc, cuts, pool, basis.prices.as_slice(), most)?;
    Ok(Start {
        trees: joined(alloc, basis.trees.as_slice(), best.as_slice())?,
        keys: keys_of(alloc, cuts, count, basis)?,
        prices: copied(alloc, basis.prices.as_slice())?,
        is_careful: basis.is_careful,
    })
}

/// Returns what a column generation begins with where no basis is known, at these prices.
fn start_without(
    alloc: Global,
    rows: &NodeRows,
    pool: &Pool,
    wanted: &[usize],
    prices: &[i128],
) -> Result<Start, Memory> {
    let most = rows.right().len().saturating_mul(LAST);
    let last = last_trees(alloc, pool.len(), most)?;
    Ok(Start {
        trees: joined(alloc, wanted, last.as_slice())?,
        keys: List::new(alloc),
        prices: copied(alloc, prices)?,
        is_careful: false,
    })
}

/// Returns what a column generation begins with at a node: the basis of the nearest node above it that is
/// kept. Where none is, or where no tree is wanted and the column generation there was not careful, it begins
/// without one.
///
/// # Errors
///
/// `Memory` where memory runs out; there is no answer then.
pub(crate) fn start_of(
    alloc: Global,
    task: &NodeTask,
    pool: &Pool,
    steering: &mut Steering,
) -> Result<Start, Memory> {
    let wanted = steering.wanted;
    match steering.bases.nearest(task.cuts) {
        Some(basis) if basis.is_careful || !wanted.is_empty() => start_from(
            alloc, task, pool, basis,
        ),
        _ => {
            let prices = steering.bases.first_prices();
            start_without(alloc, task.rows, pool, wanted, prices)
        }
    }
}
