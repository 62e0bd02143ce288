//! How many begin and end at each time.

ghost use Rattle.std.specs.Prelude.{◌≡◌, ◌≤◌, ◌+◌, ◌++◌, [], ◌∷◌, All, IfOk, OnOk, count_by, length, nat_eq};
ghost use Rattle.model_shift_figures.specs.Stretches.{stretch_of};
ghost use Rattle.model_shift_figures.specs.declared.stretch.Stretch.{Stretch as Span};
ghost use Rattle.page_rosters.specs.MomentLines.{
  all_counted,
  begun,
  counted,
  lone,
  moment_at,
  moment_line,
  moments_in,
  moments_of,
  shown_line,
};

use crate::moments::moment_text;
use model_rosters::{CodeDef, Instance, List, Memory, Shift};
use model_shift_figures::{Stretch, stretch_of, stretches_of};
use page_labels::{Clock, Labels};
use page_tables::MomentLine;
use std::alloc::Global;

// Appends the stretch of work of a word, where it has any.
fn add_work(out: &mut List<Stretch>, codes: &[CodeDef], word: &[u8]) -> Result<(), Memory>
    requires { length word.now ≤ 96 }
    ensures { OnOk result (out.new ≡ out.old ++ lone (stretch_of codes.now word.now)) }
{
    match stretch_of(codes, word) {
        None => Ok(()),
        Some(stretch) => out.push(stretch),
    }
}

// Appends the stretches of a word that are counted.
fn add_counted(
    alloc: Global,
    out: &mut List<Stretch>,
    codes: &[CodeDef],
    off: Option<u8>,
    shift: &Shift,
) -> Result<(), Memory>
    requires { length shift.now.word ≤ 96 }
    ensures { OnOk result (out.new ≡ out.old ++ counted codes.now off shift.now) }
{
    let word = shift.word.as_slice();
    match off {
        None => add_work(out, codes, word),
        Some(code) => {
            let stretches = stretches_of(alloc, Some(code), word)?;
            out.extend_from_slice(stretches.as_slice())
        }
    }
}

// Returns the stretches of all shifts that are counted.
fn all_counted(
    alloc: Global,
    codes: &[CodeDef],
    off: Option<u8>,
    shifts: &[Shift],
) -> Result<List<Stretch>, Memory>
    requires { All (λ s. length s.word ≤ 96) shifts.now }
    ensures { IfOk result (λ ts. ts ≡ all_counted codes.now off shifts.now) }
{
    let mut stretches = List::new(alloc);
    for shift in shifts {
        add_counted(alloc, &mut stretches, codes, off, shift)?;
    }
    Ok(stretches)
}

// Returns the period that begins at a time behind so many periods, or without a clock the period of a number.
fn begun(clock: Option<Clock>, passed: u8) -> u32
    ensures { result ≡ begun clock passed }
{
    match clock {
        None => passed as u32,
        Some(_) => passed as u32 + 1,
    }
}

// Returns how many stretches begin with a period.
fn begins_at(stretches: &[Stretch], period: u32) -> usize
    ensures { result ≡ count_by (λ (t : Span). nat_eq t.first period) stretches.now }
{
    stretches
        .iter()
        .filter(|stretch| stretch.first as u32 == period)
        .count()
}

// Returns how many stretches end with a period.
fn ends_at(stretches: &[Stretch], period: u8) -> usize
    ensures { result ≡ count_by (λ (t : Span). nat_eq t.last period) stretches.now }
{
    stretches
        .iter()
        .filter(|stretch| stretch.last == period)
        .count()
}

// Returns the line of a time.
fn moment_line(
    alloc: Global,
    clock: Option<Clock>,
    stretches: &[Stretch],
    passed: u8,
) -> Result<MomentLine, Memory>
    ensures { IfOk result (λ l. l ≡ moment_line clock stretches.now passed) }
{
    Ok(MomentLine {
        time: moment_text(alloc, clock, passed)?,
        begins: begins_at(stretches, begun(clock, passed)) as u64,
        ends: ends_at(stretches, passed) as u64,
    })
}

// Appends the line of a time, where any begin or end then.
#[tactic(auto, unfolding(crate::specs::MomentLines::shown_line))]
fn add_shown(lines: &mut List<MomentLine>, line: MomentLine) -> Result<(), Memory>
    ensures { OnOk result (lines.new ≡ lines.old ++ shown_line line) }
{
    if line.begins > 0 || line.ends > 0 {
        lines.push(line)?;
    }
    Ok(())
}

// Appends the same for the time behind so many periods.
fn add_moment(
    alloc: Global,
    lines: &mut List<MomentLine>,
    clock: Option<Clock>,
    stretches: &[Stretch],
    passed: u8,
) -> Result<(), Memory>
    ensures { OnOk result (lines.new ≡ lines.old ++ moment_at clock stretches.now passed) }
{
    let line = moment_line(alloc, clock, stretches, passed)?;
    add_shown(lines, line)
}

// Returns a line for each time from the day's begin to its end.
fn moments_in(
    alloc: Global,
    clock: Option<Clock>,
    periods: u8,
    stretches: &[Stretch],
) -> Result<List<MomentLine>, Memory>
    ensures { IfOk result (λ lines. lines ≡ moments_in clock periods stretches.now) }
{
    let mut lines = List::new(alloc);
    add_moment(alloc, &mut lines, clock, stretches, 0)?;
    for place in 0..periods {
        add_moment(alloc, &mut lines, clock, stretches, place + 1)?;
    }
    Ok(lines)
}

/// Returns a line for each time at which any stretch begins or ends, of all shifts: their stretches where
/// time off is named, else their work.
///
/// # Errors
///
/// `Memory` where memory runs out; nothing is kept then.
pub fn moments_of(
    alloc: Global,
    instance: &Instance,
    labels: &Labels,
    shifts: &[Shift],
) -> Result<List<MomentLine>, Memory>
    requires { All (λ s. length s.word ≤ 96) shifts.now }
    ensures { IfOk result (λ lines. lines ≡ moments_of instance.now labels.now shifts.now) }
{
    let codes = instance.grammar.codes.as_slice();
    let stretches = all_counted(alloc, codes, labels.off, shifts)?;
    let periods = instance.grammar.periods;
    moments_in(alloc, labels.clock, periods, stretches.as_slice())
}
