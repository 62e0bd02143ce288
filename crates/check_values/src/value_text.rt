//! The text of an allowed roster.

ghost use Rattle.std.specs.Prelude.{◌≡◌, ◌≤◌, ◌++◌, [], ◌∷◌, IfOk, OnOk, length};
ghost use Rattle.text_lines.specs.Written.{written};
ghost use Rattle.model_rosters.specs.SoundInstance.{IsSoundInstance};
ghost use Rattle.check_values.specs.ValueText.{stated_line, head_lines, roster_lines, value_text};

use crate::covered::covered_lines;
use crate::valued::Valued;
use model_rosters::{Instance, List, Memory};
use std::alloc::Global;
use text_certificates::shift_lines;
use text_lines::put;
use text_reports::{header_line, number_line};

// Writes the line that says that a roster was stated.
fn stated_line(out: &mut List<u8>) -> Result<(), Memory>
    ensures { OnOk result (out.new ≡ out.old ++ written (stated_line ∷ [])) }
{
    put(out, b"result stated\n")
}

// Writes the lines before the shifts.
fn head_lines(out: &mut List<u8>, instance: &Instance, value: &Valued) -> Result<(), Memory>
    ensures { OnOk result (out.new ≡ out.old ++ written (head_lines instance.now value.now)) }
{
    header_line(out, instance.groups.as_slice())?;
    stated_line(out)?;
    number_line(out, b"cost", value.cost)
}

// Writes the lines of the roster.
fn roster_lines(
    alloc: Global,
    out: &mut List<u8>,
    instance: &Instance,
    value: &Valued,
) -> Result<(), Memory>
    requires sound { IsSoundInstance instance.now }
    requires few { length value.now.shifts ≤ 64 }
    ensures { OnOk result (out.new ≡ out.old ++ written (roster_lines instance.now value.now)) }
{
    let shifts = value.shifts.as_slice();
    number_line(out, b"shifts", shifts.len() as u64)?;
    shift_lines(out, instance, shifts)?;
    number_line(out, b"paid", value.paid)?;
    number_line(out, b"penalty", value.penalty)?;
    covered_lines(alloc, out, instance, shifts)
}

/// Returns the text of an allowed roster: the lines of a report without those of a search.
///
/// # Errors
///
/// `Memory` where memory runs out; there is no text then.
pub(crate) fn value_text(
    alloc: Global,
    instance: &Instance,
    value: &Valued,
) -> Result<List<u8>, Memory>
    requires sound { IsSoundInstance instance.now }
    requires few { length value.now.shifts ≤ 64 }
    ensures { IfOk result (λ text. text ≡ value_text instance.now value.now) }
{
    let mut out = List::new(alloc);
    head_lines(&mut out, instance, value)?;
    roster_lines(alloc, &mut out, instance, value)?;
    Ok(out)
}
