//! The next line, read as a form.

ghost use Rattle.std.specs.Prelude.{◌≡◌, ◌≤◌, Ok, Err, length, IfOk, MatchResult};
ghost use Rattle.text_reports.specs.declared.report.Report.{Report as Said};
ghost use Rattle.text_reports.specs.LineWords.{number_said, header_said, done_said, amount_said, shift_said, part_said};
ghost use Rattle.text_reports.specs.Readings.{next_item, line_next, ended, Reads};

use crate::fault::ReportFault;
use crate::part::Part;
use crate::said::{amount_said, done_said, is_header, number_said, part_said, shift_said};
use model_rosters::{Done, Group, Instance, List, Memory, Shift};
use std::alloc::Global;
use text_lines::{BadByte, Line, Lines, Words, put};

// Takes the next line, where the text may not end yet.
fn next_line<'a>(lines: &mut Lines<'a>) -> Result<Line<'a>, ReportFault>
    ensures { MatchResult result (λ line. next_item lines.old ≡ Ok (line, lines.new))
        (λ e. next_item lines.old ≡ Err e) }
{
    match lines.next() {
        None => Err(ReportFault::CutShort),
        Some(Err(BadByte { line })) => Err(ReportFault::BadByte { line }),
        Some(Ok(line)) => Ok(line),
    }
}

/// Reads the first line of a report for these groups.
///
/// # Errors
///
/// `CutShort` at the end of the text; `BadByte` where the next line has one, and `BadLine` where it is none
/// of this form, each with its number.
pub(crate) fn header_line(lines: &mut Lines<'_>, groups: &[Group]) -> Result<(), ReportFault>
    ensures { Reads (λ _. (tt, lines.new)) result (line_next (header_said groups.now) lines.old) }
{
    let line = next_line(lines)?;
    if is_header(groups, &line) {
        return Ok(());
    }
    Err(ReportFault::BadLine {
        line: line.number(),
    })
}

/// Reads the line that says how the search ended.
///
/// # Errors
///
/// `CutShort` at the end of the text; `BadByte` where the next line has one, and `BadLine` where it is none
/// of this form, each with its number.
pub(crate) fn done_line(lines: &mut Lines<'_>) -> Result<Done, ReportFault>
    ensures { Reads (λ done. (done, lines.new)) result (line_next done_said lines.old) }
{
    let line = next_line(lines)?;
    match done_said(&line) {
        Some(done) => Ok(done),
        None => Err(ReportFault::BadLine {
            line: line.number(),
        }),
    }
}

/// Reads a line of this word and of a cost or a bound.
///
/// # Errors
///
/// `CutShort` at the end of the text; `BadByte` where the next line has one, and `BadLine` where it is none
/// of this form, each with its number.
pub(crate) fn amount_line(lines: &mut Lines<'_>, first: &[u8]) -> Result<Option<u64>, ReportFault>
    ensures { Reads (λ amount. (amount, lines.new)) result (line_next (amount_said first.now) lines.old) }
{
    let line = next_line(lines)?;
    match amount_said(first, &line) {
        Some(amount) => Ok(amount),
        None => Err(ReportFault::BadLine {
            line: line.number(),
        }),
    }
}

/// Reads a line of this word and of a number that is no greater than `most`.
///
/// # Errors
///
/// `CutShort` at the end of the text; `BadByte` where the next line has one, and `BadLine` where it is none
/// of this form, each with its number.
pub(crate) fn number_line(
    lines: &mut Lines<'_>,
    most: u64,
    first: &[u8],
) -> Result<u64, ReportFault>
    ensures value { Reads (λ n. (n, lines.new)) result (line_next (number_said most first.now) lines.old) }
    ensures within { IfOk result (λ n. n ≤ most) }
{
    let line = next_line(lines)?;
    match number_said(most, first, &line) {
        Some(n) => Ok(n),
        None => Err(ReportFault::BadLine {
            line: line.number(),
        }),
    }
}

// A shift with a word of its own.
fn shift(alloc: Global, group: u8, word: &[u8], price: u64) -> Result<Shift, Memory>
    ensures { IfOk result (λ s. s ≡ record { group = group; word = word.now; price = price }) }
{
    let mut letters = List::new(alloc);
    put(&mut letters, word)?;
    Ok(Shift {
        group,
        word: letters,
        price,
    })
}

/// Reads the line of a shift.
///
/// # Errors
///
/// `CutShort` at the end of the text; `BadByte` where the next line has one, and `BadLine` where it is none
/// of this form, each with its number. `Memory` may come at any time.
pub(crate) fn shift_line(
    alloc: Global,
    lines: &mut Lines<'_>,
    instance: &Instance,
) -> Result<Shift, ReportFault>
    requires { length instance.now.groups ≤ 8 }
    ensures { Reads (λ s. (s, lines.new)) result
        (line_next (shift_said instance.now.grammar.names instance.now.groups) lines.old) }
{
    let line = next_line(lines)?;
    let names = instance.grammar.names.as_slice();
    let Some(said) = shift_said(names, instance.groups.as_slice(), &line) else {
        return Err(ReportFault::BadLine {
            line: line.number(),
        });
    };
    let shift = shift(alloc, said.group, said.word, said.price)?;
    Ok(shift)
}

/// Reads the line of this part of the cover of a code's cells, and gives the words of its numbers.
///
/// # Errors
///
/// `CutShort` at the end of the text; `BadByte` where the next line has one, and `BadLine` where it is none
/// of this form, each with its number.
pub(crate) fn part_line<'a>(
    lines: &mut Lines<'a>,
    part: Part,
    code: u8,
    periods: u8,
) -> Result<Words<'a>, ReportFault>
    ensures { Reads (λ ws. (ws, lines.new)) result (line_next (part_said part code periods) lines.old) }
{
    let line = next_line(lines)?;
    match part_said(part, code, periods, &line) {
        Some(words) => Ok(words),
        None => Err(ReportFault::BadLine {
            line: line.number(),
        }),
    }
}

/// Sees that no line is left.
///
/// # Errors
///
/// `Trailing` with the number of the next line, or `BadByte` where it has one.
pub(crate) fn last_line(lines: &mut Lines<'_>) -> Result<(), ReportFault>
    ensures { (r : Said) → Reads (λ _. r) result (ended r lines.old) }
{
    match lines.next() {
        None => Ok(()),
        Some(Err(BadByte { line })) => Err(ReportFault::BadByte { line }),
        Some(Ok(line)) => Err(ReportFault::Trailing {
            line: line.number(),
        }),
    }
}
