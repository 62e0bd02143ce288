//! One row.

ghost use Rattle.std.specs.Prelude.{◌≡◌, ◌≤◌, ◌*◌, [], IfOk};
ghost use Rattle.plan_meaning.specs.Times.{day_length, shown_behind};
ghost use Rattle.plan_words.specs.Days.{IsSoundDay};
ghost use Rattle.plan_forecast.specs.Rows.{asked_at, cell_at, empty_at, empty_cells, is_step, later_at, minute_at, numbers_at, row_at, step_at, step_by, step_minute, without_seconds};
ghost use Rattle.plan_forecast.specs.Steps.{Reads};

use crate::fault::{ForecastFault, RowFault};
use crate::table::{Asked, Table};
use crate::title::{copied, first_cell, further_cells};
use model_rosters::List;
use plan_meaning::{PlanDay, Time};
use plan_words::{WordFault, begin_behind, begin_minute, clock_time, day_length, number};
use std::alloc::Global;

/// The minutes from one midnight to the next.
const CLOCK_DAY: u32 = 1440;

// Returns a time without seconds, where they are `:00`.
#[tactic(auto, unfolding(crate::specs::Rows::without_seconds))]
fn without_seconds(word: &[u8]) -> &[u8]
    ensures { result.now ≡ without_seconds word.now }
{
    let length = word.len();
    if 5 < length && &word[length - 3..] == b":00".as_slice() {
        &word[..length - 3]
    } else {
        word
    }
}

// Reads the time of a row, in minutes behind midnight.
#[tactic(auto, unfolding(crate::specs::Rows::minute_at))]
fn minute(alloc: Global, line: u32, cell: &[u8]) -> Result<u32, ForecastFault>
    ensures value { Reads (λ m. m) result (minute_at line cell.now) }
    ensures small { IfOk result (λ m. m ≤ 1440) }
{
    match clock_time(without_seconds(cell)) {
        Ok(minute) => Ok(minute),
        Err(_) => {
            let word = copied(alloc, cell)?;
            let fault = RowFault::NoTime { word };
            Err(ForecastFault::Row { line, fault })
        }
    }
}

// Whether a step is some whole periods.
fn is_step(day: &PlanDay, step: u32) -> bool
    requires { 1 ≤ day.now.minutes }
    ensures { result ≡ is_step day.now step }
{
    0 < step && step % day.minutes == 0
}

// Returns how many minutes behind the day's begin so many steps are.
fn steps_behind(step: u32, passed: usize) -> u128
    ensures { result ≡ passed * step }
{
    passed as u128 * step as u128
}

/// Returns the minute behind midnight at which the step behind so many others begins.
pub(crate) fn step_minute(day: &PlanDay, step: u32, passed: usize) -> u32
    ensures value { result ≡ step_minute day.now step passed }
    ensures small { result ≤ 1439 }
{
    ((begin_minute(day) as u128 + steps_behind(step, passed)) % CLOCK_DAY as u128) as u32
}

// Reads how long steps are from a row that is not the first.
#[tactic(auto, unfolding(crate::specs::Rows::later_at))]
fn later_step(
    alloc: Global,
    day: &PlanDay,
    line: u32,
    table: &Table,
    cell: &[u8],
    shown: u32,
    step: u32,
) -> Result<u32, ForecastFault>
    requires { IsSoundDay day.now }
    ensures { Reads (λ s. s) result (later_at day.now line table.now cell.now shown step) }
{
    let passed = table.rows.len();
    if passed < 2 && !is_step(day, step) {
        let minutes = day.minutes;
        let fault = RowFault::Steps { step, minutes };
        return Err(ForecastFault::Row { line, fault });
    }
    let behind = steps_behind(step, passed);
    if day_length(day) as u128 <= behind {
        let word = copied(alloc, cell)?;
        let end = begin_minute(day) + day_length(day);
        let fault = RowFault::Behind { word, end };
        return Err(ForecastFault::Row { line, fault });
    }
    if shown as u128 != behind % CLOCK_DAY as u128 {
        let word = copied(alloc, cell)?;
        let comes = step_minute(day, step, passed);
        let fault = RowFault::Other { word, comes, step };
        return Err(ForecastFault::Row { line, fault });
    }
    Ok(step)
}

// Reads how long steps are from a row whose time the clock first shows so far behind the day's begin.
#[tactic(auto, unfolding(crate::specs::Rows::step_at))]
fn step(
    alloc: Global,
    day: &PlanDay,
    line: u32,
    table: &Table,
    cell: &[u8],
    shown: u32,
) -> Result<u32, ForecastFault>
    requires { IsSoundDay day.now }
    ensures { Reads (λ s. s) result (step_at day.now line table.now cell.now shown) }
{
    let passed = table.rows.len();
    if 0 < passed {
        let step = if passed < 2 { shown } else { table.step };
        return later_step(alloc, day, line, table, cell, shown, step);
    }
    if shown != 0 {
        let word = copied(alloc, cell)?;
        let begin = begin_minute(day);
        let fault = RowFault::First { word, begin };
        return Err(ForecastFault::Row { line, fault });
    }
    Ok(0)
}

// Reads the number of a cell under a heading.
#[tactic(auto, unfolding(crate::specs::Rows::asked_at))]
fn asked_number(
    alloc: Global,
    line: u32,
    minute: u32,
    asked: Asked,
    cell: &[u8],
) -> Result<u8, ForecastFault>
    ensures { Reads (λ n. n) result (asked_at line minute asked cell.now) }
{
    if cell.len() == 0 {
        let Asked { code, kind } = asked;
        let fault = RowFault::NoNumber { minute, code, kind };
        return Err(ForecastFault::Row { line, fault });
    }
    match number(0, 64, cell) {
        Ok(n) => Ok(n as u8),
        Err(WordFault::NoNumber) => {
            let word = copied(alloc, cell)?;
            let fault = RowFault::NoWhole { word };
            Err(ForecastFault::Row { line, fault })
        }
        Err(_) => {
            let word = copied(alloc, cell)?;
            let fault = RowFault::Outside { word };
            Err(ForecastFault::Row { line, fault })
        }
    }
}

// Refuses a cell under no heading that is not empty.
#[tactic(auto, unfolding(crate::specs::Rows::empty_at))]
fn no_number(alloc: Global, line: u32, cell: &[u8]) -> Result<u8, ForecastFault>
    ensures { Reads (λ n. n) result (empty_at line cell.now) }
{
    if cell.len() == 0 {
        return Ok(0);
    }
    let word = copied(alloc, cell)?;
    let fault = RowFault::NoHeading { word };
    Err(ForecastFault::Row { line, fault })
}

// Reads a cell, under a heading or under an empty one.
#[tactic(auto, unfolding(crate::specs::Rows::cell_at))]
fn cell_number(
    alloc: Global,
    line: u32,
    minute: u32,
    heading: &Option<Asked>,
    cell: &[u8],
) -> Result<u8, ForecastFault>
    ensures { Reads (λ n. n) result (cell_at line minute heading.now cell.now) }
{
    match heading {
        Some(asked) => asked_number(alloc, line, minute, *asked, cell),
        None => no_number(alloc, line, cell),
    }
}

// Refuses cells behind those under headings that are not empty, and gives the numbers back.
fn all_empty(
    alloc: Global,
    line: u32,
    numbers: List<u8>,
    cells: &[List<u8>],
) -> Result<List<u8>, ForecastFault>
    ensures { Reads (λ ns. ns) result (empty_cells line numbers cells.now) }
{
    let mut left = cells;
    while let [cell, rest @ ..] = left {
        no_number(alloc, line, cell.as_slice())?;
        left = rest;
    }
    Ok(numbers)
}

// Reads a number for each heading.
fn numbers(
    alloc: Global,
    line: u32,
    minute: u32,
    headings: &[Option<Asked>],
    cells: &[List<u8>],
) -> Result<List<u8>, ForecastFault>
    ensures { Reads (λ ns. ns) result (numbers_at line minute [] headings.now cells.now) }
{
    let mut numbers = List::new(alloc);
    let mut left = headings;
    let mut cells = cells;
    while let [heading, rest @ ..] = left {
        let number = cell_number(alloc, line, minute, heading, first_cell(cells))?;
        numbers.push(number)?;
        left = rest;
        cells = further_cells(cells);
    }
    all_empty(alloc, line, numbers, cells)
}

// Returns how far behind the day's begin the clock first shows a minute.
fn shown_behind(day: &PlanDay, minute: u32) -> u32
    requires { minute ≤ 1440 }
    ensures { result ≡ shown_behind day.now minute }
{
    let time = Time {
        minute,
        next_day: false,
    };
    begin_behind(day, &time) as u32
}

/// Adds a row of cells.
///
/// # Errors
///
/// `Row`: the first cell is no time, or not the one that comes; then the first cell from the left that cannot
/// stand. `Memory` may come at any time.
#[tactic(auto, unfolding(crate::specs::Rows::row_at))]
pub(crate) fn row(
    alloc: Global,
    day: &PlanDay,
    line: u32,
    table: &mut Table,
    cells: &[List<u8>],
) -> Result<(), ForecastFault>
    requires { IsSoundDay day.now }
    ensures { Reads (λ _. (table.new)) result (row_at day.now line table.old cells.now) }
{
    let minute = minute(alloc, line, first_cell(cells))?;
    let shown = shown_behind(day, minute);
    let step = step(alloc, day, line, table, first_cell(cells), shown)?;
    let headings = table.headings.as_slice();
    let numbers = numbers(alloc, line, minute, headings, further_cells(cells))?;
    table.rows.push(numbers)?;
    table.step = step;
    table.line = line;
    Ok(())
}
