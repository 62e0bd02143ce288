//! The lines of causes.

ghost use Rattle.std.specs.Prelude.{◌≡◌, ◌++◌, OnOk};
ghost use Rattle.check_values.specs.CauseText.{
  word_at,
  team_text,
  no_shift_text,
  phrase_end,
  range_text,
  cell_text,
  limit_text,
  cause_text,
  causes_text,
};

use crate::cause::Cause;
use model_rosters::{Instance, List, Memory, Shift};
use text_certificates::group_name;
use text_lines::{field, put, word};

// Returns the word of the shift of a number.
fn word_at(shifts: &[Shift], number: u32) -> &[u8]
    ensures { result.now ≡ word_at shifts.now number }
{
    let place = (number as usize).saturating_sub(1);
    match shifts.get(place) {
        Some(shift) => shift.word.as_slice(),
        None => b"",
    }
}

// Appends the line of a shift that is none.
fn no_shift(out: &mut List<u8>, shifts: &[Shift], number: u32) -> Result<(), Memory>
    ensures { OnOk result (out.new ≡ out.old ++ no_shift_text shifts.now number) }
{
    put(out, b"shift")?;
    field(out, number as u64)?;
    word(out, word_at(shifts, number))?;
    put(out, b": no shift\n")
}

// Appends whose employees are counted.
fn team(out: &mut List<u8>, instance: &Instance, group: u8) -> Result<(), Memory>
    ensures { OnOk result (out.new ≡ out.old ++ team_text instance.now group) }
{
    if group == 0 {
        return put(out, b"heads");
    }
    put(out, b"group")?;
    word(out, group_name(instance, group))
}

// Appends a phrase, a number and the end of the line.
fn phrase_end(out: &mut List<u8>, phrase: &[u8], number: u32) -> Result<(), Memory>
    ensures { OnOk result (out.new ≡ out.old ++ phrase_end phrase.now number) }
{
    put(out, phrase)?;
    field(out, number as u64)?;
    put(out, b"\n")
}

// Appends the line of a team with too few or too many employees.
fn range(
    out: &mut List<u8>,
    instance: &Instance,
    group: u8,
    count: u32,
    phrase: &[u8],
    limit: u32,
) -> Result<(), Memory>
    ensures { OnOk result (out.new ≡ out.old ++ range_text instance.now group count phrase.now limit) }
{
    team(out, instance, group)?;
    field(out, count as u64)?;
    phrase_end(out, phrase, limit)
}

// Appends a cell, by the byte of its code and its period, behind a word.
fn cell(out: &mut List<u8>, first: &[u8], code: u8, period: u8) -> Result<(), Memory>
    ensures { OnOk result (out.new ≡ out.old ++ cell_text first.now code period) }
{
    put(out, first)?;
    word(out, &[code])?;
    put(out, b" period")?;
    field(out, period as u64)
}

// Appends the line of a cell outside its floor or its ceiling.
fn limit(
    out: &mut List<u8>,
    first: &[u8],
    code: u8,
    period: u8,
    have: u32,
    limit: u32,
) -> Result<(), Memory>
    ensures { OnOk result (out.new ≡ out.old ++ limit_text first.now code period have limit) }
{
    cell(out, first, code, period)?;
    put(out, b":")?;
    field(out, have as u64)?;
    phrase_end(out, b" of", limit)
}

// Appends the line of a cause.
fn cause_line(
    out: &mut List<u8>,
    instance: &Instance,
    shifts: &[Shift],
    cause: &Cause,
) -> Result<(), Memory>
    ensures { OnOk result (out.new ≡ out.old ++ cause_text instance.now shifts.now cause.now) }
{
    match *cause {
        Cause::NoShift { shift } => no_shift(out, shifts, shift),
        Cause::TooFew {
            group,
            count,
            least,
        } => range(out, instance, group, count, b": at least", least),
        Cause::TooMany { group, count, most } => {
            range(out, instance, group, count, b": at most", most)
        }
        Cause::BelowFloor {
            code,
            period,
            have,
            floor,
        } => limit(out, b"floor", code, period, have, floor),
        Cause::AboveCeiling {
            code,
            period,
            have,
            ceiling,
        } => limit(out, b"ceiling", code, period, have, ceiling),
    }
}

/// Appends a line for each cause of a roster of these shifts.
///
/// # Errors
///
/// `Memory` where memory runs out; a part of them may stand there then.
pub fn cause_lines(
    out: &mut List<u8>,
    instance: &Instance,
    shifts: &[Shift],
    causes: &[Cause],
) -> Result<(), Memory>
    ensures { OnOk result (out.new ≡ out.old ++ causes_text instance.now shifts.now causes.now) }
{
    for cause in causes {
        cause_line(out, instance, shifts, cause)?;
    }
    Ok(())
}
