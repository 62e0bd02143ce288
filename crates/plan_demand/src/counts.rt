//! A number for each period.

ghost use Rattle.std.specs.Prelude.{◌≡◌, ◌≤◌, ◌*◌, ◌/◌, slice_index_or, IfOk};
ghost use Rattle.plan_words.specs.Days.{IsSoundDay};
ghost use Rattle.plan_meaning.specs.Rosters.{step_at};
ghost use Rattle.plan_demand.specs.Demands.{counts_of};

use model_rosters::{List, Memory};
use plan_meaning::{Forecast, Plan};
use plan_words::day_length;
use std::alloc::Global;

// Returns the number at a place, or another behind the last.
fn number_or(numbers: &[u8], place: usize, other: u32) -> u32
    ensures { result ≡ slice_index_or numbers.now place other }
{
    match numbers.get(place) {
        Some(number) => *number as u32,
        None => other,
    }
}

// Returns the step that holds the period behind so many others, from 0.
fn step_at(plan: &Plan, forecast: &Forecast, passed: u32) -> usize
    requires { 1 ≤ forecast.now.step }
    ensures { result ≡ step_at plan.now forecast.now passed }
{
    (passed as u64 * plan.day.minutes as u64 / forecast.step as u64) as usize
}

/// Returns in each period the number of the step that holds it, or another behind the last.
///
/// # Errors
///
/// `Memory` where memory runs out.
pub(crate) fn counts(
    alloc: Global,
    plan: &Plan,
    forecast: &Forecast,
    numbers: &[u8],
    other: u32,
) -> Result<List<u32>, Memory>
    requires day { IsSoundDay plan.now.day }
    requires step { 1 ≤ forecast.now.step }
    ensures { IfOk result (λ counts. counts ≡ counts_of plan.now forecast.now numbers.now other) }
{
    let mut counts = List::new(alloc);
    for passed in 0..day_length(&plan.day) / plan.day.minutes {
        counts.push(number_or(numbers, step_at(plan, forecast, passed), other))?;
    }
    Ok(counts)
}
