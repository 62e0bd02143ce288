//! What a column generation begins with beside a basis, by the volume algorithm.

ghost use Rattle.tree_pool.specs.Pools.{IsPool};
ghost use Rattle.lp_master_rows.specs.search_day.Rooms.{Grows};
ghost use Rattle.lp_master_rows.specs.node_task.Tasks.{IsTask};
ghost use Rattle.search_columns.specs.Tools.{MayGenerate, StayTools};

use crate::starting::{Start, copied, joined};
use lp_master_rows::NodeTask;
use model_rosters::{List, Memory};
use search_node_columns::volume::{Volume, volume};
use search_watch::Watch;
use std::alloc::Global;
use tree_cheapest::Pricer;
use tree_pool::Pool;

/// From so many rows on a column generation begins with the volume algorithm, and ends where its best prices
/// are good enough: below, a float program alone takes hundredths of a second.
pub(crate) const MANY_ROWS: usize = 250;

/// The passes of the volume algorithm where no prices are known.
const PASSES: u32 = 3_500;

/// Its passes from the prices of a node above.
const FURTHER_PASSES: u32 = 400;

/// How many of its trees a column generation begins with, for each row.
const TREES: usize = 4;

/// What a column generation begins with beside a basis.
#[derive(Drop)]
pub(crate) struct Warm {
    /// Trees of the pool, those of the start first.
    pub(crate) trees: List<usize>,
    /// Prices of the rows, in units of 2^-24; none where none are known.
    pub(crate) prices: List<i128>,
    /// What these prices show, in the same units; none where it is not known.
    pub(crate) bound: Option<i128>,
}

/// Returns what a start alone gives.
fn cold(alloc: Global, start: &Start) -> Result<Warm, Memory> {
    Ok(Warm {
        trees: joined(alloc, start.trees.as_slice(), &[])?,
        prices: List::new(alloc),
        bound: None,
    })
}

/// Returns the trees of a start, and the cheapest ones of the volume algorithm behind them; with its prices.
fn warmed(
    alloc: Global,
    task: &NodeTask,
    start: &Start,
    found: &Volume,
    most: usize,
    pool: &mut Pool,
) -> Result<Warm, Memory>
    requires task { IsTask task.now }
    requires own { IsPool task.now.day.instance.now.grammar found.now.pool }
    requires pool { IsPool task.now.day.instance.now.grammar pool.old }
    ensures { Grows task.now.day pool.old pool.new }
{
    let trees = found.list(alloc, task.day.instance, most, pool)?;
    Ok(Warm {
        trees: joined(alloc, start.trees.as_slice(), trees.as_slice())?,
        prices: copied(alloc, found.prices.as_slice())?,
        bound: Some(found.bound),
    })
}

/// Returns the start's prices, if it has any, and how many passes of the volume algorithm may begin there.
fn begin_at(start: &Start) -> (Option<&[i128]>, u32) {
    let prices = start.prices.as_slice();
    if prices.is_empty() {
        (None, PASSES)
    } else {
        (Some(prices), FURTHER_PASSES)
    }
}

/// Returns what a column generation begins with: at many rows the cheapest trees of the volume algorithm,
/// which begins at the start's prices, beside those of the start. A watch that is over ends that.
///
/// # Errors
///
/// `Memory` where memory runs out; the pricer is still one for the graph then, and the pool has its trees
/// under their numbers, and perhaps further trees of the day.
pub(crate) fn warm_up<W: Watch>(
    alloc: Global,
    task: &NodeTask,
    start: &Start,
    pricer: &mut Pricer,
    pool: &mut Pool,
    watch: &W,
) -> Result<Warm, Memory>
    requires { MayGenerate task.now pricer.old pool.old }
    ensures { StayTools task.now.day pricer.new pool.old pool.new }
{
    let count = task.rows.right().len();
    if count < MANY_ROWS {
        return cold(alloc, start);
    }
    let (from, passes) = begin_at(start);
    let found = volume(alloc, task, from, passes, pricer, watch)?;
    let most = count.saturating_mul(TREES);
    warmed(alloc, task, start, &found, most, pool)
}
