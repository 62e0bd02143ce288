//! One line.

ghost use Rattle.std.specs.Prelude.{◌≡◌, ◌∷◌};
ghost use Rattle.plan_words.specs.Days.{IsSoundDay};
ghost use Rattle.plan_cells.specs.Cells.{cells_of};
ghost use Rattle.plan_forecast.specs.ForecastOf.{cells_at, first_line_at, line_at, line_cells, line_of_cells, separator_at};
ghost use Rattle.plan_forecast.specs.Steps.{at_line, lifted, Reads};

use crate::fault::ForecastFault;
use crate::heading::headings;
use crate::row::row;
use crate::table::Table;
use model_rosters::List;
use plan_cells::{CellFault, Line, are_empty, cells, separator_of, sign_fault};
use plan_meaning::Plan;
use std::alloc::Global;

// The fault of the cells of a line.
fn at_line(line: u32, fault: CellFault) -> ForecastFault
    ensures { result ≡ at_line line fault }
{
    match fault {
        CellFault::Memory => ForecastFault::Memory,
        _ => ForecastFault::Cells { line, fault },
    }
}

// Reads the texts of a line's cells.
#[tactic(auto, unfolding(crate::specs::ForecastOf::line_cells))]
fn line_cells(
    alloc: Global,
    line: u32,
    separator: u8,
    bytes: &[u8],
) -> Result<List<List<u8>>, ForecastFault>
    ensures { Reads (λ cells. cells) result (line_cells line separator bytes.now) }
{
    if let Some(fault) = sign_fault(bytes) {
        return Err(at_line(line, fault));
    }
    match cells(alloc, separator, bytes) {
        Ok(cells) => Ok(cells),
        Err(fault) => Err(at_line(line, fault)),
    }
}

// Reads the first line.
#[tactic(auto, unfolding(crate::specs::ForecastOf::first_line_at))]
fn first_line(
    alloc: Global,
    line: u32,
    plan: &Plan,
    table: &mut Table,
    separator: u8,
    cells: &[List<u8>],
) -> Result<(), ForecastFault>
    ensures { Reads (λ _. (table.new)) result (first_line_at line plan.now table.old separator cells.now) }
{
    let headings = headings(alloc, line, plan, separator, cells)?;
    table.separator = Some(separator);
    table.headings = headings;
    Ok(())
}

// Returns what parts the cells of a line.
fn separator_at(table: &Table, bytes: &[u8]) -> u8
    ensures { result ≡ separator_at table.now bytes.now }
{
    match table.separator {
        Some(separator) => separator,
        None => separator_of(bytes),
    }
}

// Reads the cells of a line, of which not all are empty.
fn line_of_some(
    alloc: Global,
    line: u32,
    plan: &Plan,
    table: &mut Table,
    separator: u8,
    cells: &[List<u8>],
) -> Result<(), ForecastFault>
    requires { IsSoundDay plan.now.day }
    ensures { Reads (λ _. (table.new)) result (cells_at line plan.now table.old separator cells.now) }
{
    match table.separator {
        Some(_) => row(alloc, &plan.day, line, table, cells),
        None => first_line(alloc, line, plan, table, separator, cells),
    }
}

// Reads the cells of a line.
#[tactic(auto, unfolding(crate::specs::ForecastOf::line_of_cells))]
fn line_of_cells(
    alloc: Global,
    line: u32,
    plan: &Plan,
    table: &mut Table,
    separator: u8,
    cells: &[List<u8>],
) -> Result<(), ForecastFault>
    requires { IsSoundDay plan.now.day }
    ensures { Reads (λ _. (table.new)) result (line_of_cells line plan.now table.old separator cells.now) }
{
    if are_empty(cells) {
        return Ok(());
    }
    line_of_some(alloc, line, plan, table, separator, cells)
}

/// Reads a line.
///
/// # Errors
///
/// `Cells` of its signs, then of its quotation marks; then `Heading` in the first line, and `Row` in others.
/// `Memory` may come at any time.
#[tactic(auto, unfolding(crate::specs::ForecastOf::line_at))]
pub(crate) fn line(
    alloc: Global,
    plan: &Plan,
    table: &mut Table,
    line: &Line<'_>,
) -> Result<(), ForecastFault>
    requires { IsSoundDay plan.now.day }
    ensures { Reads (λ _. (table.new)) result
        (line_at plan.now table.old (record { number = line.now.number; bytes = line.now.bytes.now })) }
{
    let separator = separator_at(table, line.bytes);
    let cells = line_cells(alloc, line.number, separator, line.bytes)?;
    line_of_cells(alloc, line.number, plan, table, separator, cells.as_slice())
}
