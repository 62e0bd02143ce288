//! A report, written.

ghost use Rattle.std.specs.Prelude.{◌≡◌, ◌≤◌, ◌++◌, [], ◌∷◌, codes, length, IfOk, OnOk};
ghost use Rattle.model_rosters.specs.SoundInstance.{IsSoundInstance};
ghost use Rattle.text_lines.specs.Written.{written};
ghost use Rattle.text_reports.specs.ReportText.{
  header_line,
  done_word,
  result_line,
  number_line,
  head_lines,
  roster_lines,
  cost_lines,
  report_text,
};
ghost use Rattle.text_reports.specs.Writable.{IsWritable};

use crate::cover_text::cover_lines;
use crate::report::Report;
use model_rosters::{Done, Group, Instance, List, Memory};
use std::alloc::Global;
use text_certificates::{amount_line, shift_lines};
use text_lines::{field, put, word};

/// Writes the first line of a report for these groups.
///
/// # Errors
///
/// `Memory` where memory runs out; a part of it may stand there then.
pub fn header_line(out: &mut List<u8>, groups: &[Group]) -> Result<(), Memory>
    ensures { OnOk result (out.new ≡ out.old ++ written (header_line groups.now ∷ [])) }
{
    put(out, b"report")?;
    if groups.is_empty() {
        word(out, b"1")?;
    } else {
        word(out, b"2")?;
    }
    out.push(b'\n')
}

// Returns the word for how a search ended.
fn done_word(done: Done) -> &'static [u8]
    ensures { result.now ≡ done_word done }
{
    match done {
        Done::Equal => b"optimal",
        Done::NoRoster => b"none",
        Done::TurnsOut => b"turns",
    }
}

/// Writes the line that says how a search ended.
///
/// # Errors
///
/// `Memory` where memory runs out; a part may stand in `out` then.
pub(crate) fn result_line(out: &mut List<u8>, done: Done) -> Result<(), Memory>
    ensures { OnOk result (out.new ≡ out.old ++ written (result_line done ∷ [])) }
{
    put(out, b"result")?;
    word(out, done_word(done))?;
    out.push(b'\n')
}

/// Writes a line of a word and a number.
///
/// # Errors
///
/// `Memory` where memory runs out; a part of it may stand there then.
pub fn number_line(out: &mut List<u8>, first: &[u8], number: u64) -> Result<(), Memory>
    ensures { OnOk result (out.new ≡ out.old ++ written (number_line first.now number ∷ [])) }
{
    put(out, first)?;
    field(out, number)?;
    out.push(b'\n')
}

// Writes the lines that each report has.
fn head_lines(out: &mut List<u8>, groups: &[Group], report: &Report) -> Result<(), Memory>
    ensures { OnOk result (out.new ≡ out.old ++ written (head_lines groups.now report.now)) }
{
    header_line(out, groups)?;
    result_line(out, report.done)?;
    amount_line(out, b"cost", report.cost)?;
    amount_line(out, b"bound", report.bound)?;
    number_line(out, b"processed", report.processed as u64)?;
    number_line(out, b"failed", report.failed as u64)
}

// Writes the lines of a roster.
fn roster_lines(out: &mut List<u8>, instance: &Instance, report: &Report) -> Result<(), Memory>
    requires sound { IsSoundInstance instance.now }
    requires whole { length report.now.cover ≡ length instance.now.cells }
    requires few { length report.now.shifts ≤ 64 }
    ensures { OnOk result (out.new ≡ out.old ++ written (roster_lines instance.now report.now)) }
{
    number_line(out, b"shifts", report.shifts.len() as u64)?;
    shift_lines(out, instance, report.shifts.as_slice())?;
    number_line(out, b"paid", report.paid)?;
    number_line(out, b"penalty", report.penalty)?;
    cover_lines(out, instance, report.cover.as_slice())
}

// Writes the lines of the roster, where there is one.
fn cost_lines(out: &mut List<u8>, instance: &Instance, report: &Report) -> Result<(), Memory>
    requires sound { IsSoundInstance instance.now }
    requires report { IsWritable instance.now report.now }
    ensures { OnOk result (out.new ≡ out.old
        ++ written (cost_lines instance.now report.now report.now.cost)) }
{
    match report.cost {
        None => Ok(()),
        Some(_) => roster_lines(out, instance, report),
    }
}

/// Writes the text of a report, with one space between words and no comment.
///
/// # Errors
///
/// `Memory` where memory runs out; there is no text then.
pub fn write_report(alloc: Global, instance: &Instance, report: &Report) -> Result<List<u8>, Memory>
    requires sound { IsSoundInstance instance.now }
    requires report { IsWritable instance.now report.now }
    ensures { IfOk result (λ text. text ≡ report_text instance.now report.now) }
{
    let mut out = List::new(alloc);
    head_lines(&mut out, instance.groups.as_slice(), report)?;
    cost_lines(&mut out, instance, report)?;
    Ok(out)
}
