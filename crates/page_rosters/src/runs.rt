//! The lines of shortages and of surplus.

ghost use Rattle.std.specs.Prelude.{◌≡◌, ◌++◌, [], ◌∷◌, IfOk, OnOk, map};
ghost use Rattle.std.specs.List.{flat_map};
ghost use Rattle.page_text.specs.Costs.{AreDayColumns};
ghost use Rattle.model_shift_figures.specs.Runs.{AreDayLacks};
ghost use Rattle.page_rosters.specs.RunLines.{
  cost_of,
  run_line,
  run_lines,
  shortage_of,
  shortages,
  surplus_lines,
  surplus_of,
};

use crate::called::code_called;
use crate::moments::{begin_text, end_text};
use model_rosters::{CodeDef, List, Memory};
use model_shift_figures::{Lack, Run, runs_of};
use page_labels::Labels;
use page_tables::RunLine;
use page_text::CellCover;
use std::alloc::Global;

// Returns what a penalty is of where there are so many employees, and else 0.
fn cost_of(count: u32, penalty: u64) -> u64
    ensures { result ≡ cost_of count penalty }
{
    if count == 0 { 0 } else { penalty }
}

// Returns how many employees are missing in a period.
fn shortage_of(column: &CellCover) -> Lack
    ensures { result ≡ shortage_of column.now }
{
    Lack {
        code: column.code,
        period: column.period,
        count: column.short,
        cost: cost_of(column.short, column.penalty),
    }
}

// Returns how many employees there are beyond the need in a period.
fn surplus_of(column: &CellCover) -> Lack
    ensures { result ≡ surplus_of column.now }
{
    Lack {
        code: column.code,
        period: column.period,
        count: column.over,
        cost: cost_of(column.over, column.penalty),
    }
}

// Returns how many employees are missing in each period.
fn all_shortages(alloc: Global, columns: &[CellCover]) -> Result<List<Lack>, Memory>
    ensures { IfOk result (λ lacks. lacks ≡ map shortage_of columns.now) }
{
    let mut lacks = List::new(alloc);
    for column in columns {
        lacks.push(shortage_of(column))?;
    }
    Ok(lacks)
}

// Returns how many employees there are beyond the need in each period.
fn all_surplus(alloc: Global, columns: &[CellCover]) -> Result<List<Lack>, Memory>
    ensures { IfOk result (λ lacks. lacks ≡ map surplus_of columns.now) }
{
    let mut lacks = List::new(alloc);
    for column in columns {
        lacks.push(surplus_of(column))?;
    }
    Ok(lacks)
}

// Returns the line of a run.
fn run_line(alloc: Global, codes: &[CodeDef], labels: &Labels, run: &Run) -> Result<RunLine, Memory>
    ensures { IfOk result (λ l. l ≡ run_line codes.now labels.now run.now) }
{
    Ok(RunLine {
        code: code_called(alloc, codes, labels, run.code)?,
        first: begin_text(alloc, labels.clock, run.first)?,
        last: end_text(alloc, labels.clock, run.last)?,
        count: run.count,
        cost: run.cost,
    })
}

// Returns the lines of runs.
fn run_lines(
    alloc: Global,
    codes: &[CodeDef],
    labels: &Labels,
    runs: &[Run],
) -> Result<List<RunLine>, Memory>
    ensures { IfOk result (λ lines. lines ≡ run_lines codes.now labels.now runs.now) }
{
    let mut lines = List::new(alloc);
    for run in runs {
        lines.push(run_line(alloc, codes, labels, run)?)?;
    }
    Ok(lines)
}

/// Returns the lines of the runs of shortage.
///
/// # Errors
///
/// `Memory` where memory runs out; nothing is kept then.
pub fn shortages(
    alloc: Global,
    codes: &[CodeDef],
    labels: &Labels,
    columns: &[CellCover],
) -> Result<List<RunLine>, Memory>
    requires { AreDayColumns columns.now }
    ensures { IfOk result (λ lines. lines ≡ shortages codes.now labels.now columns.now) }
{
    let lacks = all_shortages(alloc, columns)?;
    let runs = runs_of(alloc, lacks.as_slice())?;
    run_lines(alloc, codes, labels, runs.as_slice())
}

/// Returns the lines of the runs of surplus.
///
/// # Errors
///
/// `Memory` where memory runs out; nothing is kept then.
pub fn surplus_lines(
    alloc: Global,
    codes: &[CodeDef],
    labels: &Labels,
    columns: &[CellCover],
) -> Result<List<RunLine>, Memory>
    requires { AreDayColumns columns.now }
    ensures { IfOk result (λ lines. lines ≡ surplus_lines codes.now labels.now columns.now) }
{
    let lacks = all_surplus(alloc, columns)?;
    let runs = runs_of(alloc, lacks.as_slice())?;
    run_lines(alloc, codes, labels, runs.as_slice())
}
