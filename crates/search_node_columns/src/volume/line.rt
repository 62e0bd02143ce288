//! The numbers of a row.

ghost use Rattle.std.specs.Prelude.{◌<◌};
ghost use Rattle.lp_master_rows.specs.node_task.Tasks.{IsTask, row_count};

use crate::volume::float::{Cover64, Price64, Share64, bounded, price_of, whole_of};
use lp_fractions::Place;
use lp_master_rows::NodeTask;
use model_rosters::{List, Memory};
use std::alloc::Global;
use std::num::nearest_i64_to_f64;

/// How far a price may be from 0 where no cost of its row bounds it.
const MOST_PRICE: i64 = 10_000;

/// The numbers of a row.
#[derive(Clone, Copy, Drop)]
pub(crate) struct RowNumbers {
    /// The least price; it is the greatest one too where the price is not looked for.
    pub(crate) low: Price64,
    /// The greatest price.
    pub(crate) high: Price64,
    /// The right side.
    pub(crate) right: Cover64,
    /// The price at which the bound is best so far.
    pub(crate) best: Price64,
    /// The price that is tried.
    pub(crate) tried: Price64,
    /// What the trees bring in the mean.
    pub(crate) mean: Cover64,
    /// What the last tree brings, as often as there are heads.
    pub(crate) last: Cover64,
    /// What the mean lacks of the right side; 0 where the price cannot go there.
    pub(crate) gap: Cover64,
}

/// Returns the greatest size of a negative price of a row, and its greatest price.
fn bounds_of(task: &NodeTask, row: usize) -> (i64, i64)
    requires task { IsTask task.now }
    requires row { row < row_count task.now }
{
    let head = task.rows.first_head();
    if row == head || row == head.saturating_add(1) {
        return (0, 0);
    }
    let beyond = task.rows.beyond_cost(row).unwrap_or(MOST_PRICE);
    (beyond, task.rows.missing_cost(row, MOST_PRICE))
}

/// Returns the number at a place, 0 where there is none.
fn at(numbers: &[i128], place: usize) -> i128 {
    match numbers.get(place) {
        Some(number) => *number,
        None => 0,
    }
}

/// Returns a line of these bounds and this right side, at a price.
fn line_of(beyond: i64, missing: i64, right: i64, price: i128) -> RowNumbers {
    let low = -nearest_i64_to_f64(beyond);
    let high = nearest_i64_to_f64(missing);
    let best = bounded(price_of(price), low, high);
    RowNumbers {
        low,
        high,
        right: nearest_i64_to_f64(right),
        best,
        tried: best,
        mean: 0.0,
        last: 0.0,
        gap: 0.0,
    }
}

/// Returns the lines of a node's rows at prices in units of 2^-24; a row behind these has the price 0.
///
/// # Errors
///
/// `Memory` where memory runs out; nothing is kept then.
pub(crate) fn lines_of(
    alloc: Global,
    task: &NodeTask,
    prices: &[i128],
) -> Result<Vec<RowNumbers>, Memory>
    requires { IsTask task.now }
{
    let mut lines = List::new(alloc);
    for row in 0..task.rows.right().len() {
        let right = task.rows.right().get(row).copied().unwrap_or(0);
        let (beyond, missing) = bounds_of(task, row);
        lines.push(line_of(beyond, missing, right, at(prices, row)))?;
    }
    Ok(lines.into_vec())
}

/// Returns what it costs to meet so many of the first rows by what is missing alone.
pub(crate) fn cost_of_missing(lines: &[RowNumbers], count: usize) -> Price64 {
    let mut cost = 0.0;
    for line in lines.iter().take(count) {
        cost += line.right * line.high;
    }
    cost
}

/// Sets what the mean lacks in each row, and returns the sum of its squares.
pub(crate) fn set_gaps(lines: &mut [RowNumbers]) -> Cover64 {
    let mut squares = 0.0;
    for line in lines.iter_mut() {
        let lack = line.right - line.mean;
        let is_stopped = (lack > 0.0 && line.best >= line.high)
            || (lack < 0.0 && line.best <= line.low);
        let gap = if is_stopped { 0.0 } else { lack };
        line.gap = gap;
        squares += gap * gap;
    }
    squares
}

/// Tries the prices that a step from the best ones along the gaps leads to, within their bounds, and writes
/// them in units of 2^-24.
pub(crate) fn try_prices(lines: &mut [RowNumbers], step: Share64, asked: &mut [i128]) {
    for (line, number) in lines.iter_mut().zip(asked.iter_mut()) {
        let price = bounded(line.best + step * line.gap, line.low, line.high);
        line.tried = price;
        *number = whole_of(price);
    }
}

/// Takes the tried prices for the best ones.
pub(crate) fn keep_prices(lines: &mut [RowNumbers]) {
    for line in lines.iter_mut() {
        line.best = line.tried;
    }
}

/// Sets what a tree with these entries brings, so many times.
pub(crate) fn set_last(lines: &mut [RowNumbers], places: &[Place], heads: Cover64) {
    for line in lines.iter_mut() {
        line.last = 0.0;
    }
    for place in places {
        if let Some(line) = lines.get_mut(place.row as usize) {
            line.last = heads;
        }
    }
}

/// Returns the share of the last tree at which a mean of it and the mean before lacks least, by the sum of
/// squares; none where both bring the same.
pub(crate) fn least_share(lines: &[RowNumbers]) -> Option<Share64> {
    let mut product = 0.0;
    let mut square = 0.0;
    for line in lines.iter() {
        if line.low < line.high {
            let change = line.last - line.mean;
            product += (line.right - line.mean) * change;
            square += change * change;
        }
    }
    if square > 0.0 {
        Some(product / square)
    } else {
        None
    }
}

/// Gives the last tree a share of the mean.
pub(crate) fn mix_last(lines: &mut [RowNumbers], share: Share64) {
    for line in lines.iter_mut() {
        line.mean += share * (line.last - line.mean);
    }
}

/// Returns the product of what the last tree lacks and the gaps: above 0 where a further step along them
/// would do.
pub(crate) fn rise_of(lines: &[RowNumbers]) -> Cover64 {
    let mut rise = 0.0;
    for line in lines.iter() {
        rise += (line.right - line.last) * line.gap;
    }
    rise
}
