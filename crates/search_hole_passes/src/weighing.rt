//! What a count weighs.

use model_rosters::{Cell, penalty};

/// What a count weighs for each employee by whom it is outside of its cell's range: more than any roster
/// costs.
const OUTSIDE: u64 = 1 << 40;

/// Returns what a count weighs at a cell.
pub fn weight(cell: &Cell, count: u32) -> u64 {
    let lacking = cell.floor.saturating_sub(count);
    let outside = lacking.saturating_add(count.saturating_sub(cell.ceiling));
    penalty(cell, count).saturating_add(OUTSIDE.saturating_mul(u64::from(outside)))
}
