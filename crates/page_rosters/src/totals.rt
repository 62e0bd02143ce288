//! The lines of codes.

ghost use Rattle.std.specs.Prelude.{◌≡◌, ◌≤◌, ◌+◌, ◌^◌, ◌++◌, [], ◌∷◌, All, IfOk, OnOk, length};
ghost use Rattle.page_rosters.specs.TotalLines.{
  all_covered,
  all_missing,
  all_needed,
  missing,
  needed,
  total_line,
  totals_of,
};

use crate::called::code_called;
use model_rosters::{CodeDef, List, Memory, Shift};
use model_shift_figures::{code_total, covered_share};
use page_labels::Labels;
use page_tables::TotalLine;
use page_text::CellCover;
use std::alloc::Global;

// Returns how many employees are needed for a code, over all periods.
fn needed(code: u8, columns: &[CellCover]) -> u64
    requires { length columns.now ≤ 768 }
    ensures value { result ≡ needed code columns.now 0 }
    ensures small { result ≤ 2 ^ 50 }
{
    let mut sum: u64 = 0;
    for column in columns {
        if column.code == code {
            sum += column.need as u64;
        }
    }
    sum
}

// Returns how many employees are missing for a code, over all periods.
fn missing(code: u8, columns: &[CellCover]) -> u64
    requires { length columns.now ≤ 768 }
    ensures { result ≡ missing code columns.now 0 }
{
    let mut sum: u64 = 0;
    for column in columns {
        if column.code == code {
            sum += column.short as u64;
        }
    }
    sum
}

// Returns how many employees are needed over all codes and periods.
fn all_needed(columns: &[CellCover]) -> u64
    requires { length columns.now ≤ 768 }
    ensures value { result ≡ all_needed columns.now 0 }
    ensures small { result ≤ 2 ^ 50 }
{
    let mut sum: u64 = 0;
    for column in columns {
        sum += column.need as u64;
    }
    sum
}

// Returns how many employees are missing over all codes and periods.
fn all_missing(columns: &[CellCover]) -> u64
    requires { length columns.now ≤ 768 }
    ensures { result ≡ all_missing columns.now 0 }
{
    let mut sum: u64 = 0;
    for column in columns {
        sum += column.short as u64;
    }
    sum
}

/// Returns which share of the need is covered in all, in tenths of a percent, rounded down, or none where
/// nothing is needed.
pub fn all_covered(columns: &[CellCover]) -> Option<u64>
    requires { length columns.now ≤ 768 }
    ensures { result ≡ all_covered columns.now }
{
    covered_share(all_needed(columns), all_missing(columns))
}

// Returns the line of a code.
fn total_line(
    alloc: Global,
    codes: &[CodeDef],
    labels: &Labels,
    shifts: &[Shift],
    columns: &[CellCover],
    place: u8,
    code: &CodeDef,
) -> Result<TotalLine, Memory>
    requires few { length shifts.now ≤ 64 }
    requires short { All (λ s. length s.word ≤ 96) shifts.now }
    requires columns { length columns.now ≤ 768 }
    ensures { IfOk result (λ l. l ≡ total_line codes.now labels.now shifts.now columns.now place code.now) }
{
    Ok(TotalLine {
        code: code_called(alloc, codes, labels, place)?,
        total: code_total(code.byte, shifts),
        share: covered_share(needed(place, columns), missing(place, columns)),
    })
}

/// Returns a line for each code of the day.
///
/// # Errors
///
/// `Memory` where memory runs out; nothing is kept then.
pub fn totals_of(
    alloc: Global,
    codes: &[CodeDef],
    labels: &Labels,
    shifts: &[Shift],
    columns: &[CellCover],
) -> Result<List<TotalLine>, Memory>
    requires codes { length codes.now ≤ 32 }
    requires few { length shifts.now ≤ 64 }
    requires short { All (λ s. length s.word ≤ 96) shifts.now }
    requires columns { length columns.now ≤ 768 }
    ensures { IfOk result (λ lines. lines ≡ totals_of codes.now labels.now shifts.now columns.now) }
{
    let mut lines = List::new(alloc);
    let mut place: u8 = 0;
    for code in codes {
        lines.push(total_line(alloc, codes, labels, shifts, columns, place, code)?)?;
        place += 1;
    }
    Ok(lines)
}
