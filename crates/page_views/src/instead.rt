//! The line that is said in place of what shows a roster.

ghost use Rattle.std.specs.Prelude.{◌≡◌, None as Nothing, Some as Just, IfOk};
ghost use Rattle.page_labels.specs.FaultLine as label;
ghost use Rattle.page_views.specs.Shown.{is_beyond, lacks_shift, line_instead, line_of, name_fault};

use crate::kind::Kind;
use crate::roster::ShownRoster;
use crate::rows::copied;
use model_rosters::{List, Memory, Shift};
use page_labels::{LabelFault, Labels, fault_line, refused_shift};
use std::alloc::Global;

// What is said of a calendar of a shift that there is not.
const NO_SHIFT: &[u8] = b"calendar: no such shift\n";

// Returns why a name of the labels cannot stand at the roster's shifts, where there is a roster.
fn name_fault(labels: &Labels, roster: &ShownRoster) -> Option<LabelFault>
    ensures { result ≡ name_fault labels.now roster.now roster.now.cost }
{
    match roster.cost {
        None => None,
        Some(_) => refused_shift(labels.shifts.as_slice(), roster.shifts.as_slice()),
    }
}

// Whether a number is beyond the shifts.
fn is_beyond(number: Option<u32>, shifts: &[Shift]) -> bool
    ensures { result ≡ is_beyond number shifts.now }
{
    match number {
        None => false,
        Some(number) => shifts.len() < number as usize,
    }
}

// Whether a calendar is to have the events of a shift that there is not.
fn lacks_shift(kind: Kind, shifts: &[Shift]) -> bool
    ensures { result ≡ lacks_shift kind shifts.now }
{
    match kind {
        Kind::Page(_) | Kind::Table | Kind::Coverage => false,
        Kind::Calendar(events) => is_beyond(events.shift, shifts),
    }
}

// Returns the line of a name's fault.
fn name_line(alloc: Global, fault: LabelFault) -> Result<Option<List<u8>>, Memory>
    ensures { IfOk result (λ line. line ≡ Just (label.fault_line fault)) }
{
    Ok(Some(fault_line(alloc, &fault)?))
}

// Returns the line of a shift that there is not, where a calendar is to have its events.
fn shift_line(alloc: Global, kind: Kind, shifts: &[Shift]) -> Result<Option<List<u8>>, Memory>
    ensures { IfOk result (λ line. line ≡ line_of Nothing kind shifts.now) }
{
    if lacks_shift(kind, shifts) {
        Ok(Some(copied(alloc, NO_SHIFT)?))
    } else {
        Ok(None)
    }
}

/// Returns the line that is said in place of what shows a roster, where there is one: that of the first name
/// of the labels that stands at another shift or at none, else that of a shift that there is not, whose
/// events a calendar is to have.
///
/// # Errors
///
/// `Memory` where memory runs out; nothing is kept then.
pub fn line_instead(
    alloc: Global,
    kind: Kind,
    labels: &Labels,
    roster: &ShownRoster,
) -> Result<Option<List<u8>>, Memory>
    ensures { IfOk result (λ line. line ≡ line_instead kind labels.now roster.now) }
{
    match name_fault(labels, roster) {
        Some(fault) => name_line(alloc, fault),
        None => shift_line(alloc, kind, roster.shifts.as_slice()),
    }
}
