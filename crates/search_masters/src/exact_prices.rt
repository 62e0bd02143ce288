//! The prices at its end, rounded.

ghost use Rattle.std.specs.Prelude.{◌≡◌, ◌+◌, length, IfOk};
ghost use Rattle.lp_master_rows.specs.node_task.Tasks.{IsTask};
ghost use Rattle.search_masters.specs.Tasks.{ArePathPrices, AreRounded};

use lp_fractions::Tally;
use lp_master_rows::NodeTask;
use lp_rounded_prices::{RoundFault, to_prices};
use model_rosters::{Memory, Prices};
use search_node_columns::numbers_of;
use std::alloc::Global;

/// Returns want of memory, the one fault of rounding prices within 2^56.
fn memory_of(fault: RoundFault) -> Memory
    requires { fault ≡ RoundFault.Memory }
{
    match fault {
        RoundFault::Memory => Memory,
        RoundFault::Wide(_) => unreachable!(),
    }
}

/// Rounds the prices of the rows, which are within 2^56 in size, as their denominator is. `numbers`
/// has a place for each cell, for both rows of the heads and for each cut.
fn rounded(
    alloc: Global,
    task: &NodeTask,
    y: &[i128],
    kappa: i128,
    numbers: &mut [i128],
    tally: &mut Tally,
) -> Result<Prices, Memory>
    requires task { IsTask task.now }
    requires y { ArePathPrices task.now y.now kappa }
    requires numbers { length numbers.old
        ≡ length task.now.day.instance.now.cells + 2 + length task.now.cuts.now }
    ensures prices { IfOk result (AreRounded task.now y.now kappa) }
    ensures tally { tally.new ≡ tally.old }
{
    let cells = task.day.instance.cells.len();
    task.rows.gather(y, cells, numbers);
    match to_prices(alloc, numbers, kappa, cells, task.cuts, tally) {
        Ok(prices) => Ok(prices),
        Err(fault) => Err(memory_of(fault)),
    }
}

/// Returns a list of so many zeros.
fn zeros(alloc: Global, count: usize) -> Result<Vec<i128>, Memory>
    ensures { IfOk result (λ v. length v.items ≡ count) }
{
    Ok(vec![in alloc; 0i128; count]?)
}

/// Rounds the prices at the end of a master's path.
///
/// # Errors
///
/// `Memory` where memory runs out; nothing is kept then.
pub(crate) fn round(
    alloc: Global,
    task: &NodeTask,
    y: &[i128],
    kappa: i128,
    tally: &mut Tally,
) -> Result<Prices, Memory>
    requires task { IsTask task.now }
    requires y { ArePathPrices task.now y.now kappa }
    ensures prices { IfOk result (AreRounded task.now y.now kappa) }
    ensures tally { tally.new ≡ tally.old }
{
    let mut numbers = zeros(alloc, numbers_of(task.day.instance, task.cuts))?;
    rounded(alloc, task, y, kappa, &mut numbers, tally)
}
