//! The headings of the first line.

ghost use Rattle.std.specs.Prelude.{◌≡◌, []};
ghost use Rattle.std.specs.List.{list_any};
ghost use Rattle.plan_forecast.specs.Headings.{all_headings, asks, complete, found_at, has_need, heading_at, headings_at, time_word_at};
ghost use Rattle.plan_forecast.specs.Steps.{each, Reads};

use crate::called::asked_by;
use crate::fault::{ForecastFault, HeadingFault};
use crate::table::{Asked, Kind, asks};
use crate::title::{copied, first_cell, further_cells, titles};
use model_rosters::List;
use plan_meaning::{Need, Plan};
use std::alloc::Global;

// Whether a code has a need line.
fn has_need(needs: &[Need], code: u8) -> bool
    ensures { result ≡ has_need needs.now code }
{
    needs.iter().any(|need| need.code == code)
}

// Whether some heading asks this.
fn is_asked(headings: &[Option<Asked>], code: u8, kind: Kind) -> bool
    ensures { result ≡ list_any (asks code kind) headings.now }
{
    headings.iter().any(|heading| asks(code, kind, heading))
}

// Adds what was found of a heading.
#[tactic(auto, unfolding(crate::specs::Headings::found_at))]
fn found(
    alloc: Global,
    line: u32,
    plan: &Plan,
    headings: &mut List<Option<Asked>>,
    title: &[u8],
    asked: Option<Asked>,
) -> Result<(), ForecastFault>
    ensures { Reads (λ _. (headings.new)) result (found_at line plan.now headings.old title.now asked) }
{
    let Some(asked) = asked else {
        let title = copied(alloc, title)?;
        let fault = HeadingFault::NoCode { title };
        return Err(ForecastFault::Heading { line, fault });
    };
    let Asked { code, kind } = asked;
    if !has_need(plan.needs.as_slice(), code) {
        let title = copied(alloc, title)?;
        let fault = HeadingFault::NoNeed { title, code };
        return Err(ForecastFault::Heading { line, fault });
    }
    if is_asked(headings.as_slice(), code, kind) {
        let fault = HeadingFault::Twice { code, kind };
        return Err(ForecastFault::Heading { line, fault });
    }
    headings.push(Some(asked))?;
    Ok(())
}

// Adds a heading.
#[tactic(auto, unfolding(crate::specs::Headings::heading_at))]
fn heading(
    alloc: Global,
    line: u32,
    plan: &Plan,
    headings: &mut List<Option<Asked>>,
    title: &[u8],
) -> Result<(), ForecastFault>
    ensures { Reads (λ _. (headings.new)) result (heading_at line plan.now headings.old title.now) }
{
    if title.len() == 0 {
        headings.push(None)?;
        return Ok(());
    }
    let asked = asked_by(plan.codes.as_slice(), title);
    found(alloc, line, plan, headings, title, asked)
}

// Reads all headings.
fn all_headings(
    alloc: Global,
    line: u32,
    plan: &Plan,
    titles: &[List<u8>],
) -> Result<List<Option<Asked>>, ForecastFault>
    ensures { Reads (λ hs. hs) result (all_headings line plan.now titles.now) }
{
    let mut headings = List::new(alloc);
    for title in titles {
        heading(alloc, line, plan, &mut headings, title.as_slice())?;
    }
    Ok(headings)
}

// Refuses a first line without a column for some need line.
fn complete(line: u32, headings: &[Option<Asked>], needs: &[Need]) -> Result<(), ForecastFault>
    ensures { Reads (λ _. tt) result (complete line headings.now needs.now) }
{
    for need in needs {
        if !is_asked(headings, need.code, Kind::Need) {
            let fault = HeadingFault::Missing { code: need.code };
            return Err(ForecastFault::Heading { line, fault });
        }
    }
    Ok(())
}

// Refuses a first cell that is not the word `time`.
#[tactic(auto, unfolding(crate::specs::Headings::time_word_at))]
fn time_word(alloc: Global, line: u32, cell: &[u8]) -> Result<(), ForecastFault>
    ensures { Reads (λ _. tt) result (time_word_at line cell.now) }
{
    if cell == b"time".as_slice() {
        return Ok(());
    }
    let word = copied(alloc, cell)?;
    let fault = HeadingFault::NoTime { word };
    Err(ForecastFault::Heading { line, fault })
}

/// Reads the headings of the first line's cells.
///
/// # Errors
///
/// `Heading`: the word `time` does not stand first; the first heading from the left that is none; the first
/// need line without a column. `Memory` may come at any time.
#[tactic(auto, unfolding(crate::specs::Headings::headings_at))]
pub(crate) fn headings(
    alloc: Global,
    line: u32,
    plan: &Plan,
    separator: u8,
    cells: &[List<u8>],
) -> Result<List<Option<Asked>>, ForecastFault>
    ensures { Reads (λ hs. hs) result (headings_at line plan.now separator cells.now) }
{
    time_word(alloc, line, first_cell(cells))?;
    let titles = titles(alloc, separator, further_cells(cells))?;
    let headings = all_headings(alloc, line, plan, titles.as_slice())?;
    complete(line, headings.as_slice(), plan.needs.as_slice())?;
    Ok(headings)
}
