//! Near prices, rounded.

ghost use Rattle.std.specs.Prelude.{pos, ◌<ℤ◌, IsTrue, IfOk, IfSome};
ghost use Rattle.model_rosters.specs.declared.instance.Mult.{Mult as Multiplier};
ghost use Rattle.model_rosters.specs.Folds.{Each};
ghost use Rattle.lp_master_rows.specs.node_task.Tasks.{IsTask};
ghost use Rattle.search_masters.specs.Ends.{FitNode};

use check_certificates::are_fit;
use lp_master_rows::NodeTask;
use model_rosters::{Cell, Cut, Instance, List, Memory, Mult, Prices, Side};
use search_node_columns::{first_wide, numbers_of};
use std::alloc::Global;

/// The denominator of near prices, 2^20.
const DENOMINATOR: u64 = 1_048_576;

/// The unit of prices that are added up, one in 2^30: in it prices up to 2^26 are narrow.
const UNIT: i128 = 1_073_741_824;

/// How many units of a row's price, which is in 2^-40, are one in 2^-30, and how many of those one in 2^-20.
const PART: i128 = 1_024;

/// The most employees of a day: a ceiling of so many has no row.
const HEADS: u32 = 64;

/// Returns prices in units of 2^-30, each the nearest to one in units of 2^-40: what a float basis is off by
/// is gone where the price has few bits.
fn in_units(alloc: Global, y: &[i128]) -> Result<List<i128>, Memory> {
    let mut prices = List::new(alloc);
    for price in y {
        prices.push(price.saturating_add(PART / 2).div_euclid(PART))?;
    }
    Ok(prices)
}

/// Returns the price of each cell, those of both rows of the heads and those of the cuts; none where there
/// is not one for each row, or one is above 2^56 in size.
fn gathered(alloc: Global, task: &NodeTask, y: &[i128]) -> Result<Option<Vec<i128>>, Memory>
    requires { IsTask task.now }
{
    if y.len() != task.rows.right().len() || first_wide(y, UNIT).is_some() {
        return Ok(None);
    }
    let count = numbers_of(task.day.instance, task.cuts);
    let mut numbers = vec![in alloc; 0i128; count]?;
    let cells = task.day.instance.cells.len();
    task.rows.gather(y, cells, numbers.as_mut_slice());
    Ok(Some(numbers))
}

/// Returns the price of a cell in units of 2^-20, rounded down from one in units of 2^-30, and within what
/// the columns of its rows let it be.
fn cell_price(cell: &Cell, number: i128) -> i128 {
    let d = i128::from(DENOMINATOR);
    let mut price = number.div_euclid(PART);
    if cell.ceiling >= HEADS {
        price = price.max(i128::from(cell.over).saturating_mul(-d));
    }
    if cell.floor == 0 {
        price = price.min(i128::from(cell.under).saturating_mul(d));
    }
    price
}

/// Returns the prices of cells in units of 2^-20.
fn cell_prices(alloc: Global, cells: &[Cell], numbers: &[i128]) -> Result<List<i128>, Memory> {
    let mut prices = List::new(alloc);
    for (cell, number) in cells.iter().zip(numbers) {
        prices.push(cell_price(cell, *number))?;
    }
    Ok(prices)
}

/// Returns the multiplier of a cut in units of 2^-20, rounded towards 0 from the price of its row in units of
/// 2^-30; 0 where that has the wrong sign.
fn multiplier(side: Side, number: i128) -> i128 {
    let size = match side {
        Side::Low => 0i128.saturating_sub(number),
        Side::High => number,
    };
    size.max(0).div_euclid(PART)
}

/// Returns the multipliers above 0 of cuts in units of 2^-20.
fn multipliers(alloc: Global, cuts: &[Cut], numbers: &[i128]) -> Result<List<Mult>, Memory> {
    let mut mults = List::new(alloc);
    let mut number = 0u32;
    for (cut, price) in cuts.iter().zip(numbers) {
        number = number.saturating_add(1);
        let value = multiplier(cut.side, *price);
        if value > 0 {
            mults.push(Mult { cut: number, value })?;
        }
    }
    Ok(mults)
}

/// Says whether each multiplier is above 0.
fn are_above(mults: &[Mult]) -> bool
    ensures { IsTrue result → Each (λ (m : Multiplier). pos 0 <ℤ m.value) mults.now }
{
    mults.iter().all(|one| 0 < one.value)
}

/// Returns prices where they are within the limits of the node, with no multiplier of 0.
fn checked(instance: &Instance, cuts: &[Cut], prices: Prices) -> Option<Prices>
    ensures { IfSome result (FitNode instance.now cuts.now) }
{
    if are_fit(instance, cuts.len(), &prices) && are_above(prices.mult.as_slice()) {
        Some(prices)
    } else {
        None
    }
}

/// Returns prices in units of 2^-20 from those of the rows, in units of 2^-40: any numbers. None are returned
/// where there is not one for each row, or they are not within the limits.
///
/// # Errors
///
/// `Memory` where memory runs out; nothing is kept then.
pub(crate) fn near_rounded(
    alloc: Global,
    task: &NodeTask,
    y: &[i128],
) -> Result<Option<Prices>, Memory>
    requires { IsTask task.now }
    ensures { IfOk result (λ some. IfSome some (FitNode task.now.day.instance.now task.now.cuts.now)) }
{
    let prices = in_units(alloc, y)?;
    let Some(numbers) = gathered(alloc, task, prices.as_slice())? else {
        return Ok(None);
    };
    let cells = task.day.instance.cells.as_slice();
    let others = numbers.get(cells.len().saturating_add(2)..).unwrap_or(&[]);
    let prices = Prices {
        d: DENOMINATOR,
        cell: cell_prices(alloc, cells, numbers.as_slice())?,
        mult: multipliers(alloc, task.cuts, others)?,
    };
    Ok(checked(task.day.instance, task.cuts, prices))
}
