//! What the lines of shifts say.

ghost use Rattle.std.specs.Prelude.{◌≡◌};
ghost use Rattle.text_old_shifts.specs.ShiftsOf.{no_shifts};

use model_rosters::{List, Shift};
use std::alloc::Global;

/// What the lines of an old text's shifts say for a day.
#[derive(Debug, Drop)]
pub struct SaidShifts {
    /// The shifts in the order of their lines, each at the price 0.
    pub shifts: List<Shift>,
    /// How many lines are passed over, since the day has groups and the line has no name of one.
    pub passed: u32,
}

/// Returns what no line says.
pub(crate) fn no_shifts(alloc: Global) -> SaidShifts
    ensures { result ≡ no_shifts }
{
    SaidShifts {
        shifts: List::new(alloc),
        passed: 0,
    }
}
