//! Columns of all rows.

ghost use Rattle.std.specs.Prelude.{◌≡◌, ◌≤◌, [], ◌∷◌, ◌++◌, slice_index_or, position, IfOk, IfSome, length};
ghost use Rattle.plan_words.specs.Days.{IsSoundDay};
ghost use Rattle.plan_forecast.specs.Columns.{above, column_at, column_of, columns_at, first_above, forecast_at, numbers_of, said, step_of, whole_step};
ghost use Rattle.plan_forecast.specs.Headings.{asks};
ghost use Rattle.plan_forecast.specs.Steps.{Reads};

use crate::fault::{ForecastFault, RowFault};
use crate::row::step_minute;
use crate::table::{Asked, Kind, Table, asks};
use model_rosters::{List, Memory};
use plan_meaning::{Column, Forecast, Need, Plan, PlanDay};
use plan_words::day_length;
use std::alloc::Global;

/// So many may be there where nothing is said.
const MOST: u8 = 64;

// Returns the number at a place, or another.
fn number_or(numbers: &[u8], place: usize, other: u8) -> u8
    ensures { result ≡ slice_index_or numbers.now place other }
{
    match numbers.get(place) {
        Some(number) => *number,
        None => other,
    }
}

// Returns the place of the heading that asks this.
fn place_of(headings: &[Option<Asked>], code: u8, kind: Kind) -> Option<usize>
    ensures { result ≡ position (asks code kind) headings.now }
{
    headings
        .iter()
        .position(|heading| asks(code, kind, heading))
}

// Returns the numbers at a place of each row.
fn numbers_of(alloc: Global, place: usize, rows: &[List<u8>]) -> Result<List<u8>, Memory>
    ensures { IfOk result (λ ns. ns ≡ numbers_of place rows.now) }
{
    let mut numbers = List::new(alloc);
    for row in rows {
        numbers.push(number_or(row.as_slice(), place, 0))?;
    }
    Ok(numbers)
}

// Returns the numbers under the heading that asks this, where one does.
fn said(alloc: Global, table: &Table, code: u8, kind: Kind) -> Result<Option<List<u8>>, Memory>
    ensures { IfOk result (λ ns. ns ≡ said table.now code kind) }
{
    match place_of(table.headings.as_slice(), code, kind) {
        Some(place) => {
            let numbers = numbers_of(alloc, place, table.rows.as_slice())?;
            Ok(Some(numbers))
        }
        None => Ok(None),
    }
}

// Returns what is asked of a code.
fn column_of(alloc: Global, table: &Table, code: u8) -> Result<Column, Memory>
    ensures { IfOk result (λ c. c ≡ column_of table.now code) }
{
    let need = match said(alloc, table, code, Kind::Need)? {
        Some(numbers) => numbers,
        None => List::new(alloc),
    };
    let least = said(alloc, table, code, Kind::Least)?;
    let most = said(alloc, table, code, Kind::Most)?;
    Ok(Column { need, least, most })
}

// Returns the fault of the first step at which more must be there than may.
fn first_above(
    day: &PlanDay,
    step: u32,
    code: u8,
    least: &[u8],
    most: &[u8],
) -> Option<ForecastFault>
    ensures { result ≡ first_above day.now step code 0 least.now most.now }
{
    for (passed, least) in least.iter().enumerate() {
        let most = number_or(most, passed, MOST);
        if most < *least {
            return Some(ForecastFault::Above {
                code,
                minute: step_minute(day, step, passed),
                least: *least,
                most,
            });
        }
    }
    None
}

// Returns the fault of the first step at which more must be there of a column's code than may.
fn above(day: &PlanDay, step: u32, code: u8, column: &Column) -> Option<ForecastFault>
    ensures { result ≡ above day.now step code column.now.least column.now.most }
{
    match (&column.least, &column.most) {
        (Some(least), Some(most)) => {
            first_above(day, step, code, least.as_slice(), most.as_slice())
        }
        _ => None,
    }
}

// Adds the column of a need line.
#[tactic(auto, unfolding(crate::specs::Columns::column_at))]
fn column(
    alloc: Global,
    day: &PlanDay,
    step: u32,
    table: &Table,
    columns: &mut List<Column>,
    need: Need,
) -> Result<(), ForecastFault>
    ensures { Reads (λ _. (columns.new)) result (column_at day.now step table.now columns.old need) }
{
    let column = column_of(alloc, table, need.code)?;
    if let Some(fault) = above(day, step, need.code, &column) {
        return Err(fault);
    }
    columns.push(column)?;
    Ok(())
}

// Returns the columns of all need lines.
fn columns(
    alloc: Global,
    day: &PlanDay,
    step: u32,
    table: &Table,
    needs: &[Need],
) -> Result<List<Column>, ForecastFault>
    ensures { Reads (λ cs. cs) result (columns_at day.now step table.now needs.now) }
{
    let mut columns = List::new(alloc);
    for need in needs {
        column(alloc, day, step, table, &mut columns, *need)?;
    }
    Ok(columns)
}

// Returns how long a step is, or the fault of rows that are not the whole day.
#[tactic(auto, unfolding(crate::specs::Columns::step_of))]
fn step_of(day: &PlanDay, table: &Table) -> Result<u32, ForecastFault>
    requires { IsSoundDay day.now }
    ensures { result ≡ step_of day.now table.now }
{
    let rows = table.rows.len();
    if rows == 0 {
        return Err(ForecastFault::NoRow);
    }
    let length = day_length(day);
    let step = if rows == 1 { length } else { table.step };
    if rows as u128 * step as u128 == length as u128 {
        return Ok(step);
    }
    let fault = RowFault::Count {
        rows,
        step,
        day: length,
    };
    Err(ForecastFault::Row {
        line: table.line,
        fault,
    })
}

/// Makes the forecast of all rows.
///
/// # Errors
///
/// `NoRow` where there is none; `Row` where they are not the whole day; then `Above` where more must be there
/// of a code than may, of the first such code in the order of the need lines at its first such step. `Memory`
/// may come at any time.
#[tactic(auto, unfolding(crate::specs::Columns::forecast_at))]
pub(crate) fn forecast(alloc: Global, plan: &Plan, table: &Table) -> Result<Forecast, ForecastFault>
    requires { IsSoundDay plan.now.day }
    ensures { Reads (λ f. f) result (forecast_at plan.now table.now) }
{
    let step = step_of(&plan.day, table)?;
    let columns = columns(alloc, &plan.day, step, table, plan.needs.as_slice())?;
    Ok(Forecast { step, columns })
}
