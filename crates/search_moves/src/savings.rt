//! The prices of counts.

ghost use Rattle.std.specs.Prelude.{◌≡◌, ◌^◌, All, length};
ghost use Rattle.model_rosters.specs.Sums.{Within};

use crate::weighing::OUTSIDE;
use model_rosters::{Cell, penalty};

/// Returns what it is worth that one more employee brings a cell's count into its range, or out of it.
fn range_saving(cell: &Cell, count: u32) -> i128
    ensures { Within (2 ^ 41) result }
{
    if count < cell.floor {
        return i128::from(OUTSIDE);
    }
    if count >= cell.ceiling {
        return -i128::from(OUTSIDE);
    }
    0
}

/// Returns what one more employee saves at a cell where so many work.
fn saving(cell: &Cell, count: u32) -> i128
    ensures { Within (2 ^ 80) result }
{
    let before = i128::from(penalty(cell, count));
    let after = i128::from(penalty(cell, count.saturating_add(1)));
    before - after + range_saving(cell, count)
}

/// Sets what one more employee saves at each cell, where so many work there.
pub(crate) fn set_savings(cells: &[Cell], counts: &[u32], savings: &mut [i128])
    requires counts { length counts.now ≡ length cells.now }
    requires savings { length savings.old ≡ length cells.now }
    ensures length { length savings.new ≡ length savings.old }
    ensures small { All (Within (2 ^ 80)) savings.new }
{
    for (place, cell) in cells.iter().enumerate() {
        savings[place] = saving(cell, counts[place]);
    }
}
