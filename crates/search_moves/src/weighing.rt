//! What a draft weighs.

ghost use Rattle.std.specs.Prelude.{◌<◌, All, length};

use crate::draft::Draft;
use model_rosters::{Cell, Instance, penalty};
use tree_pool::Pool;

/// What a count weighs for each employee by whom it is outside of its cell's range: more than any roster
/// costs.
pub(crate) const OUTSIDE: u64 = 1 << 40;

/// Returns what a count weighs at a cell.
fn weight(cell: &Cell, count: u32) -> u64 {
    let lacking = cell.floor.saturating_sub(count);
    let outside = lacking.saturating_add(count.saturating_sub(cell.ceiling));
    penalty(cell, count).saturating_add(OUTSIDE.saturating_mul(u64::from(outside)))
}

/// Returns what a draft weighs: what its trees and its counts cost, and more than that for each employee by
/// whom a count is outside of its cell's range.
pub(crate) fn weight_of(instance: &Instance, pool: &Pool, draft: &Draft) -> u64
    requires { All (λ c. c < length pool.now) draft.now.columns.items }
{
    let mut total = 0u64;
    for &column in draft.columns.as_slice() {
        total = total.saturating_add(u64::from(pool.cost(column)));
    }
    for (cell, count) in instance
        .cells
        .as_slice()
        .iter()
        .zip(draft.counts.as_slice())
    {
        total = total.saturating_add(weight(cell, *count));
    }
    total
}
