//! A report, read.

ghost use Rattle.std.specs.Prelude.{◌≡◌, ◌<◌, ◌^◌, ◌/◌, [], ◌∷◌, ◌++◌, length, IfOk, IfErr, OnOk, OnSome, MatchOption, MatchResult};
ghost use Rattle.model_rosters.specs.SoundInstance.{IsSoundInstance};
ghost use Rattle.text_lines.specs.Lines.{text_items};
ghost use Rattle.text_reports.specs.declared.fault.ReportFault.TheVariants.{Memory as out_of_memory};
ghost use Rattle.text_reports.specs.declared.report.Report.{Report as Said};
ghost use Rattle.text_reports.specs.LineWords.{count_of, covers_of};
ghost use Rattle.text_reports.specs.Readable.{IsTextOf, IsRefused};
ghost use Rattle.text_reports.specs.Readings.{Reads};
ghost use Rattle.text_reports.specs.ReportReading.{
  head_reading,
  shifts_reading,
  code_reading,
  covers_reading,
  roster_reading,
  cost_reading,
  report_of,
};

use crate::cover::Cover;
use crate::fault::ReportFault;
use crate::next::{
    amount_line, done_line, header_line, last_line, number_line, part_line, shift_line,
};
use crate::part::Part;
use crate::report::Report;
use crate::said::number_word;
use model_rosters::{Group, Instance, List, Memory, Shift};
use std::alloc::Global;
use text_lines::{Lines, Words};
use text_proof_pieces::due_byte;

/// A roster has at most so many shifts.
const MOST_SHIFTS: u64 = 64;

/// Counts of nodes are no greater.
const MOST_COUNT: u64 = u32::MAX as u64;

// Reads the lines that each report has.
fn head(alloc: Global, lines: &mut Lines<'_>, groups: &[Group]) -> Result<Report, ReportFault>
    ensures { Reads (λ r. (r, lines.new)) result (head_reading groups.now lines.old) }
{
    header_line(lines, groups)?;
    let done = done_line(lines)?;
    let cost = amount_line(lines, b"cost")?;
    let bound = amount_line(lines, b"bound")?;
    let processed = number_line(lines, MOST_COUNT, b"processed")? as u32;
    let failed = number_line(lines, MOST_COUNT, b"failed")? as u32;
    Ok(Report {
        done,
        cost,
        bound,
        processed,
        failed,
        shifts: List::new(alloc),
        paid: 0,
        penalty: 0,
        cover: List::new(alloc),
    })
}

// Reads so many shifts.
fn shifts(
    alloc: Global,
    out: &mut List<Shift>,
    lines: &mut Lines<'_>,
    instance: &Instance,
    count: u64,
) -> Result<(), ReportFault>
    requires { IsSoundInstance instance.now }
    ensures { Reads (λ _. (out.new, lines.new)) result
        (shifts_reading instance.now out.old count lines.old) }
{
    for _ in 0..count {
        let shift = shift_line(alloc, lines, instance)?;
        out.push(shift)?;
    }
    Ok(())
}

// The number that a word says, where it says one.
#[tactic(auto, unfolding(crate::specs::LineWords::count_of))]
fn count_of(word: &[u8]) -> u32
    ensures { result ≡ count_of word.now }
{
    match number_word(MOST_COUNT, word) {
        Some(n) => n as u32,
        None => 0,
    }
}

// How the next cell is covered, by the words of the four parts.
#[tactic(auto, unfolding(crate::specs::LineWords::covers_of))]
fn next_cover(
    needs: &mut Words<'_>,
    haves: &mut Words<'_>,
    shorts: &mut Words<'_>,
    overs: &mut Words<'_>,
) -> Option<Cover>
    ensures value { MatchOption result (covers_of needs.old haves.old shorts.old overs.old ≡ [])
        (λ c. covers_of needs.old haves.old shorts.old overs.old
        ≡ c ∷ covers_of needs.new haves.new shorts.new overs.new) }
    ensures fewer { OnSome result (length needs.new < length needs.old) }
{
    let Some(need) = needs.next() else {
        return None;
    };
    let Some(have) = haves.next() else {
        return None;
    };
    let Some(short) = shorts.next() else {
        return None;
    };
    let Some(over) = overs.next() else {
        return None;
    };
    Some(Cover {
        need: count_of(need),
        have: count_of(have),
        short: count_of(short),
        over: count_of(over),
    })
}

// Appends how cells are covered, by the words of the four parts.
fn covers(
    out: &mut List<Cover>,
    needs: &mut Words<'_>,
    haves: &mut Words<'_>,
    shorts: &mut Words<'_>,
    overs: &mut Words<'_>,
) -> Result<(), Memory>
    ensures { OnOk result (out.new ≡ out.old ++ covers_of needs.old haves.old shorts.old overs.old) }
{
    while let Some(cover) = next_cover(needs, haves, shorts, overs) {
        out.push(cover)?;
    }
    Ok(())
}

// Reads the four lines of a code.
fn code_lines(
    out: &mut List<Cover>,
    lines: &mut Lines<'_>,
    code: u8,
    periods: u8,
) -> Result<(), ReportFault>
    ensures { Reads (λ _. (out.new, lines.new)) result (code_reading out.old code periods lines.old) }
{
    let mut needs = part_line(lines, Part::Need, code, periods)?;
    let mut haves = part_line(lines, Part::Have, code, periods)?;
    let mut shorts = part_line(lines, Part::Short, code, periods)?;
    let mut overs = part_line(lines, Part::Over, code, periods)?;
    covers(out, &mut needs, &mut haves, &mut shorts, &mut overs)?;
    Ok(())
}

// Reads the lines of all codes.
fn cover_lines(
    out: &mut List<Cover>,
    lines: &mut Lines<'_>,
    instance: &Instance,
) -> Result<(), ReportFault>
    requires { IsSoundInstance instance.now }
    ensures { Reads (λ _. (out.new, lines.new)) result
        (covers_reading instance.now out.old 0
        (length instance.now.cells / instance.now.grammar.periods) lines.old) }
{
    let mut place = 0;
    while place < instance.cells.len() {
        code_lines(
            out,
            lines,
            due_byte(instance, place),
            instance.grammar.periods,
        )?;
        place += instance.grammar.periods as usize;
    }
    Ok(())
}

// Reads the lines of the roster.
fn roster_lines(
    alloc: Global,
    report: &mut Report,
    lines: &mut Lines<'_>,
    instance: &Instance,
) -> Result<(), ReportFault>
    requires { IsSoundInstance instance.now }
    ensures { Reads (λ _. (report.new, lines.new)) result
        (roster_reading instance.now report.old lines.old) }
{
    let count = number_line(lines, MOST_SHIFTS, b"shifts")?;
    shifts(alloc, &mut report.shifts, lines, instance, count)?;
    report.paid = number_line(lines, u64::MAX, b"paid")?;
    report.penalty = number_line(lines, u64::MAX, b"penalty")?;
    cover_lines(&mut report.cover, lines, instance)
}

// Reads the lines behind the head, where there is a cost.
fn cost_lines(
    alloc: Global,
    report: &mut Report,
    lines: &mut Lines<'_>,
    instance: &Instance,
) -> Result<(), ReportFault>
    requires { IsSoundInstance instance.now }
    ensures { Reads (λ _. (report.new, lines.new)) result
        (cost_reading instance.now report.old report.old.cost lines.old) }
{
    match report.cost {
        None => Ok(()),
        Some(_) => roster_lines(alloc, report, lines, instance),
    }
}

// Reads all lines of a report.
fn report_lines(
    alloc: Global,
    lines: &mut Lines<'_>,
    instance: &Instance,
) -> Result<Report, ReportFault>
    requires { IsSoundInstance instance.now }
    ensures { Reads (λ r. r) result (report_of instance.now lines.old) }
{
    let mut report = head(alloc, lines, instance.groups.as_slice())?;
    cost_lines(alloc, &mut report, lines, instance)?;
    last_line(lines)?;
    Ok(report)
}

/// Reads a report of an instance. Words may be separated by blanks of any kind, and lines may be empty and
/// have comments. The lines are read in order, and the first that does not fit its place gives the fault, a
/// bad byte of a line before all else. No sum and no order of the shifts is tested.
///
/// # Errors
///
/// The fault of the first line that does not fit (`IsRefused`): `BadByte`, `BadLine` or `Trailing` with its
/// number, or `CutShort` where further lines are due. `Memory` may come at any time.
pub fn read_report(alloc: Global, instance: &Instance, text: &[u8]) -> Result<Report, ReportFault>
    requires sound { IsSoundInstance instance.now }
    requires short { length text.now < 2 ^ 32 }
    ensures accepted { IfOk result (IsTextOf instance.now text.now) }
    ensures given { (r : Said) → IsTextOf instance.now text.now r
        → MatchResult result (λ x. x ≡ r) (λ e. e ≡ out_of_memory) }
    ensures refused { IfErr result (IsRefused instance.now (text_items text.now)) }
{
    let mut lines = Lines::new(text);
    report_lines(alloc, &mut lines, instance)
}
