//! Rosters of trees, offered where they cost less.

ghost use Rattle.std.specs.Prelude.{◌<◌, All, length};
ghost use Rattle.tree_pool.specs.Pools.{IsPool};
ghost use Rattle.search_primal.specs.Workspaces.{CanOffer, HasOffered};

use model_rosters::{Cell, Instance, Memory, penalty};
use search_candidates::{Roster, RosterWorkspace, limit, offer, roster_of};
use search_masters::Pool;
use std::alloc::Global;

/// Says whether the word of a tree works at a cell.
fn works(pool: &Pool, column: usize, cell: &Cell) -> bool
    requires { column < length pool.now }
{
    let codes = pool.codes(column);
    match codes.get((cell.period as usize).saturating_sub(1)) {
        Some(code) => *code == cell.code,
        None => false,
    }
}

/// Returns how many words of the trees work at a cell.
fn workers(pool: &Pool, columns: &[usize], cell: &Cell) -> u32
    requires { All (λ c. c < length pool.now) columns.now }
{
    let mut count = 0u32;
    for &column in columns {
        if works(pool, column, cell) {
            count = count.saturating_add(1);
        }
    }
    count
}

/// Returns what a roster of trees costs, where each word is paid what its tree costs. That may be more than
/// its price, if another tree of the word costs less.
fn trees_cost(instance: &Instance, pool: &Pool, columns: &[usize]) -> u64
    requires { All (λ c. c < length pool.now) columns.now }
{
    let mut cost = 0u64;
    for &column in columns {
        cost = cost.saturating_add(u64::from(pool.cost(column)));
    }
    for cell in instance.cells.as_slice() {
        cost = cost.saturating_add(penalty(cell, workers(pool, columns, cell)));
    }
    cost
}

/// Offers the roster of these trees, where they cost less than the best one: only then are their words worth
/// a look at their prices.
///
/// # Errors
///
/// `Memory` where memory runs out; the best roster is an allowed one still then.
pub(crate) fn offer_trees(
    alloc: Global,
    instance: &Instance,
    columns: &[usize],
    pool: &Pool,
    rosters: &mut RosterWorkspace,
    best: &mut Option<Roster>,
) -> Result<(), Memory>
    requires columns { All (λ c. c < length pool.now) columns.now }
    requires pool { IsPool instance.now.grammar pool.now }
    requires offer { CanOffer instance.now rosters.old best.old }
    ensures { HasOffered instance.now rosters.new best.old best.new }
{
    if trees_cost(instance, pool, columns) >= limit(instance, best) {
        return Ok(());
    }
    let found = roster_of(alloc, instance, pool, columns, rosters)?;
    offer(instance, best, found);
    Ok(())
}
