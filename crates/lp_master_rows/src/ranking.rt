//! Trees of the least reduced costs.

ghost use Rattle.std.specs.Prelude.{◌<◌, All, IfOk, length};

use crate::rows::NodeRows;
use lp_fractions::Place;
use model_rosters::{Cut, List, Memory};
use std::alloc::Global;
use tree_pool::Pool;

/// The unit of prices, one in 2^24.
const KAPPA: i128 = 16_777_216;

/// A tree of the pool, and its reduced cost at some prices.
#[derive(Clone, Copy, Drop)]
struct Ranked {
    reduced: i128,
    tree: usize,
}

/// Returns the reduced cost of a column with this cost and these entries at prices in units of 2^-24; a row
/// behind the prices has the price 0.
pub fn reduced_at(cost: i64, places: &[Place], prices: &[i128]) -> i128 {
    let mut reduced = i128::from(cost).saturating_mul(KAPPA);
    for place in places {
        if let Some(price) = prices.get(place.row as usize) {
            reduced = reduced.saturating_sub(price.saturating_mul(i128::from(place.value)));
        }
    }
    reduced
}

impl NodeRows {
    /// Returns the trees of a pool with their reduced costs.
    fn ranked(
        &self,
        alloc: Global,
        cuts: &[Cut],
        pool: &Pool,
        prices: &[i128],
    ) -> Result<Vec<Ranked>, Memory> {
        let mut ranked = Vec::with_capacity(alloc, pool.len())?;
        for tree in 0..pool.len() {
            let places = self.places_of(alloc, cuts, pool, tree)?;
            let reduced = reduced_at(i64::from(pool.cost(tree)), places.as_slice(), prices);
            ranked.push(Ranked { reduced, tree })?;
        }
        Ok(ranked)
    }

    /// Returns at most so many trees of a pool, those of the least reduced costs at prices of the rows in
    /// units of 2^-24, the least one first, of equal ones the first in the pool; a row behind the prices has
    /// the price 0.
    ///
    /// # Errors
    ///
    /// `Memory` where memory runs out; nothing is kept then.
    pub fn best_trees(
        &self,
        alloc: Global,
        cuts: &[Cut],
        pool: &Pool,
        prices: &[i128],
        count: usize,
    ) -> Result<List<usize>, Memory> {
        let mut ranked = self.ranked(alloc, cuts, pool, prices)?;
        ranked.sort_unstable_by_key(|item| (item.reduced, item.tree));
        let mut trees = List::new(alloc);
        for item in ranked.as_slice().iter().take(count) {
            trees.push(item.tree)?;
        }
        Ok(trees)
    }
}
