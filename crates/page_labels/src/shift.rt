//! Names at the shifts of a roster.

ghost use Rattle.std.specs.Prelude.{◌≡◌};
ghost use Rattle.page_labels.specs.Shifts.{is_its_shift, refused_shift, refused_at};

use crate::fault::LabelFault;
use crate::labels::ShiftLabel;
use model_rosters::Shift;

// Whether a name stands at a shift of its group with its word.
fn is_its_shift(label: &ShiftLabel, shift: &Shift) -> bool
    ensures { result ≡ is_its_shift label.now shift.now }
{
    label.group == shift.group && label.word.as_slice() == shift.word.as_slice()
}

// Returns why a name cannot stand at these shifts, if it cannot.
#[tactic(auto, unfolding(crate::specs::Shifts::refused_at, crate::specs::Shifts::refused_of, crate::specs::Shifts::numbered_shift))]
fn refused_at(label: &ShiftLabel, shifts: &[Shift]) -> Option<LabelFault>
    ensures { result ≡ refused_at label.now shifts.now }
{
    let line = label.line;
    if label.number == 0 {
        return Some(LabelFault::NoShift { line });
    }
    match shifts.get((label.number - 1) as usize) {
        None => Some(LabelFault::NoShift { line }),
        Some(shift) if is_its_shift(label, shift) => None,
        Some(_) => Some(LabelFault::AnotherShift { line }),
    }
}

/// Returns the fault of the first named shift that a roster does not have under its number: `NoShift` where
/// the number is beyond the roster's shifts, `AnotherShift` where the shift has another group or another
/// word; with the line. `None` where each name stands at its shift. It comes after the faults of
/// [`crate::read_labels`].
pub fn refused_shift(labels: &[ShiftLabel], shifts: &[Shift]) -> Option<LabelFault>
    ensures { result ≡ refused_shift labels.now shifts.now }
{
    for label in labels {
        let refused = refused_at(label, shifts);
        if refused.is_some() {
            return refused;
        }
    }
    None
}
