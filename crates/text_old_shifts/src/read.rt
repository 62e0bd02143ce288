//! A whole text.

ghost use Rattle.std.specs.Prelude.{◌≡◌, ◌≤◌, ◌^◌, ◌<◌, length, IfOk};
ghost use Rattle.model_rosters.specs.SoundInstance.{IsSoundInstance};
ghost use Rattle.text_lines.specs.Lines.{text_items};
ghost use Rattle.text_old_shifts.specs.ShiftsOf.{begun, no_shifts, shifts_from, shifts_of};
ghost use Rattle.text_old_shifts.specs.SoundShifts.{AreSoundShifts};
ghost use Rattle.text_old_shifts.specs.Steps.{Reads};

use crate::fault::OldFault;
use crate::header::{Header, read_header};
use crate::line::{is_node, line};
use crate::said::{SaidShifts, no_shifts};
use model_rosters::Instance;
use std::alloc::Global;
use text_lines::{BadByte, Lines};

/// A text has at most so many bytes.
const MOST_BYTES: usize = 1_073_741_824;

// Reads the lines behind the first, up to that of the first node.
fn shifts_from(
    alloc: Global,
    instance: &Instance,
    header: Header,
    lines: &mut Lines<'_>,
) -> Result<SaidShifts, OldFault>
    requires { length instance.now.groups ≤ 8 }
    ensures { Reads (λ s. s) result (shifts_from instance.now header no_shifts lines.old) }
{
    let mut said = no_shifts(alloc);
    while let Some(item) = lines.next() {
        let next = match item {
            Ok(next) => next,
            Err(BadByte { line }) => return Err(OldFault::BadByte { line }),
        };
        if is_node(&next) {
            return Ok(said);
        }
        line(alloc, instance, header, &mut said, &next)?;
    }
    Ok(said)
}

// Reads the lines of a text.
fn begun(alloc: Global, instance: &Instance, text: &[u8]) -> Result<SaidShifts, OldFault>
    requires groups { length instance.now.groups ≤ 8 }
    requires short { length text.now < 2 ^ 32 }
    ensures { Reads (λ s. s) result (begun instance.now (text_items text.now)) }
{
    let mut lines = Lines::new(text);
    let Some(item) = lines.next() else {
        return Err(OldFault::CutShort);
    };
    let first = match item {
        Ok(first) => first,
        Err(BadByte { line }) => return Err(OldFault::BadByte { line }),
    };
    let Some(header) = read_header(&first) else {
        return Err(OldFault::BadHeader {
            line: first.number(),
        });
    };
    shifts_from(alloc, instance, header, &mut lines)
}

/// Reads the shifts that an old text, a proof text or a report, says for a day, up to the first line of a
/// node. On a day without groups a name is dropped; on a day with groups lines without a name of one are
/// passed over.
///
/// A text that is too long is refused before all else, then one with another first line. Then the lines are
/// read in order, and the first that cannot stand gives the fault; in a line a bad byte comes first, then its
/// form, then that 64 lines of shifts stand before, then its words from left to right.
///
/// # Errors
///
/// The first fault of the text, in this order; `Memory` may come at any time.
#[tactic(auto, unfolding(crate::specs::ShiftsOf::shifts_of))]
pub fn read_shifts(alloc: Global, instance: &Instance, text: &[u8]) -> Result<SaidShifts, OldFault>
    requires { IsSoundInstance instance.now }
    ensures value { Reads (λ s. s) result (shifts_of instance.now text.now) }
    ensures sound { IfOk result (AreSoundShifts instance.now) }
{
    if MOST_BYTES < text.len() {
        return Err(OldFault::TooLong);
    }
    begun(alloc, instance, text)
}
