//! The first cell outside its range.

ghost use Rattle.std.specs.Prelude.{◌≤◌, MatchOption, length};
ghost use Rattle.model_rosters.specs.Coverage.{covered, IsWithinCell};
ghost use Rattle.model_rosters.specs.Folds.{Each};
ghost use Rattle.model_rosters.specs.SoundInstance.{IsSoundInstance};
ghost use Rattle.check_certificates.specs.RosterCauses.{duties};
ghost use Rattle.check_parts.specs.roster_part.Faults.{IsCoverageCause};

use crate::roster_part::counter::{Counter, code_byte};
use crate::roster_part::stated::StatedShift;
use check_certificates::Why;
use model_rosters::Instance;

/// Returns the first cell whose coverage is outside its floor and ceiling, and `None` where each
/// cell's coverage is within them. Takes no memory. There are at most 64 shifts.
pub fn coverage_fault(instance: &Instance, shifts: &[StatedShift]) -> Option<Why>
    requires sound { IsSoundInstance instance.now }
    requires few { length shifts.now ≤ 64 }
    ensures { MatchOption result
        (Each (λ c. IsWithinCell c (covered instance.now.grammar c (duties shifts.now))) instance.now.cells)
        (IsCoverageCause instance.now shifts.now) }
{
    let grammar = &instance.grammar;
    let mut counter = Counter::new();
    for cell in instance.cells.as_slice() {
        let have = counter.coverage(grammar, shifts, cell);
        if have < cell.floor || cell.ceiling < have {
            return Some(Why::Outside {
                code: code_byte(grammar, cell),
                period: cell.period,
                have,
            });
        }
    }
    None
}
