//! Trees with their reduced costs, and how they are listed.

ghost use Rattle.std.specs.Prelude.{◌<◌, All, IfOk, length};
ghost use Rattle.model_rosters.specs.SoundInstance.{IsSoundInstance};
ghost use Rattle.tree_pool.specs.Pools.{IsPool, IsGrown};

use lp_master_rows::{NodeTask, reduced_at};
use model_rosters::{Instance, List, Memory};
use std::alloc::Global;
use tree_pool::Pool;

/// A tree that was found.
#[derive(Clone, Copy, Drop)]
pub struct Found {
    /// Its number in the volume's pool.
    pub tree: usize,
    /// Its reduced cost at the volume's prices, in units of 2^-24.
    pub reduced: i128,
}

/// What passes over a node's rows lead to.
#[derive(Drop)]
pub struct Volume {
    /// A price for each row, in units of 2^-24.
    pub prices: List<i128>,
    /// What these prices show of the least cost, in the same units; 0 where no pass was taken.
    pub bound: i128,
    /// How many passes were taken.
    pub passes: u32,
    /// The trees that were found.
    pub pool: Pool,
    /// The same with their reduced costs, the least one first, of equal ones the one found first.
    pub trees: List<Found>,
}

/// Returns a tree of the pool with its reduced cost at prices.
fn found_at(
    alloc: Global,
    task: &NodeTask,
    pool: &Pool,
    prices: &[i128],
    tree: usize,
) -> Result<Found, Memory>
    requires { tree < length pool.now }
{
    let places = task.rows.places_of(alloc, task.cuts, pool, tree)?;
    let cost = i64::from(pool.cost(tree));
    Ok(Found {
        tree,
        reduced: reduced_at(cost, places.as_slice(), prices),
    })
}

/// Returns the trees of the pool with their reduced costs at prices, the least one first.
///
/// # Errors
///
/// `Memory` where memory runs out; nothing is kept then.
pub(crate) fn found_trees(
    alloc: Global,
    task: &NodeTask,
    pool: &Pool,
    prices: &[i128],
) -> Result<List<Found>, Memory> {
    let order = task
        .rows
        .best_trees(alloc, task.cuts, pool, prices, pool.len())?;
    let mut trees = List::new(alloc);
    for &tree in order.as_slice() {
        if tree < pool.len() {
            trees.push(found_at(alloc, task, pool, prices, tree)?)?;
        }
    }
    Ok(trees)
}

/// Puts a tree of a pool into another pool, where it lacks it, and returns its number there.
fn copied(instance: &Instance, from: &Pool, tree: usize, to: &mut Pool) -> Result<usize, Memory>
    requires sound { IsSoundInstance instance.now }
    requires from { IsPool instance.now.grammar from.now }
    requires tree { tree < length from.now }
    requires to { IsPool instance.now.grammar to.old }
    ensures to { IsPool instance.now.grammar to.new }
    ensures grown { IsGrown to.old to.new }
    ensures within { IfOk result (λ c. c < length to.new) }
{
    to.add(&instance.grammar, from.tree(tree).steps.as_slice())
}

impl Volume {
    /// Puts the trees of least reduced costs, at most so many, into another pool, where it lacks them, and
    /// returns their numbers there, the least one first.
    ///
    /// # Errors
    ///
    /// `Memory` where memory runs out; the other pool may have further trees.
    pub fn list(
        &self,
        alloc: Global,
        instance: &Instance,
        most: usize,
        pool: &mut Pool,
    ) -> Result<List<usize>, Memory>
        requires sound { IsSoundInstance instance.now }
        requires own { IsPool instance.now.grammar self.now.pool }
        requires pool { IsPool instance.now.grammar pool.old }
        ensures within { IfOk result (λ found. All (λ c. c < length pool.new) found) }
        ensures pool { IsPool instance.now.grammar pool.new }
        ensures grown { IsGrown pool.old pool.new }
    {
        let mut numbers = List::new(alloc);
        for found in self.trees.as_slice().iter().take(most) {
            if found.tree < self.pool.len() {
                numbers.push(copied(instance, &self.pool, found.tree, pool)?)?;
            }
        }
        Ok(numbers)
    }
}
