//! The whole text.

ghost use Rattle.std.specs.Prelude.{◌≡◌, ◌<◌, ◌^◌, length};
ghost use Rattle.plan_words.specs.Days.{IsSoundDay};
ghost use Rattle.plan_forecast.specs.ForecastOf.{finish, forecast_of, no_table, table_of};
ghost use Rattle.plan_forecast.specs.Steps.{each, Reads};

use crate::columns::forecast;
use crate::fault::ForecastFault;
use crate::line::line;
use crate::table::Table;
use model_rosters::List;
use plan_cells::Lines;
use plan_meaning::{Forecast, Plan};
use std::alloc::Global;

/// A text has at most so many bytes.
const MOST_BYTES: usize = 1_048_576;

// Returns what nothing says.
fn no_table(alloc: Global) -> Table
    ensures { result ≡ no_table }
{
    Table {
        separator: None,
        headings: List::new(alloc),
        step: 0,
        rows: List::new(alloc),
        line: 0,
    }
}

// Reads all lines of a text.
fn table(alloc: Global, plan: &Plan, text: &[u8]) -> Result<Table, ForecastFault>
    requires short { length text.now < 2 ^ 32 }
    requires day { IsSoundDay plan.now.day }
    ensures { Reads (λ t. t) result (table_of plan.now text.now) }
{
    let mut table = no_table(alloc);
    let mut lines = Lines::new(text);
    while let Some(next) = lines.next() {
        line(alloc, plan, &mut table, &next)?;
    }
    Ok(table)
}

// Makes the forecast of a table.
#[tactic(auto, unfolding(crate::specs::ForecastOf::finish))]
fn finish(alloc: Global, plan: &Plan, table: &Table) -> Result<Forecast, ForecastFault>
    requires { IsSoundDay plan.now.day }
    ensures { Reads (λ f. f) result (finish plan.now table.now) }
{
    match table.separator {
        Some(_) => forecast(alloc, plan, table),
        None => Err(ForecastFault::NoLine),
    }
}

/// Reads the forecast that a text says for a plan, or the text's first fault.
///
/// A text that is too long is refused before all else. Then the first line is read: its signs, its quotation
/// marks, the word `time`, the headings from the left, and which need line has no column; then the rows from
/// above: signs, quotation marks, the time, the cells from the left. Then it is asked whether the rows are
/// the whole day, and last whether somewhere more must be there than may.
///
/// # Errors
///
/// The first fault of the text, in this order; `Memory` may come at any time.
#[tactic(auto, unfolding(crate::specs::ForecastOf::forecast_of))]
pub fn read_forecast(alloc: Global, plan: &Plan, text: &[u8]) -> Result<Forecast, ForecastFault>
    requires { IsSoundDay plan.now.day }
    ensures { Reads (λ f. f) result (forecast_of plan.now text.now) }
{
    if MOST_BYTES < text.len() {
        return Err(ForecastFault::TooLong);
    }
    let table = table(alloc, plan, text)?;
    finish(alloc, plan, &table)
}
