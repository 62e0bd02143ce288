//! Need lines and bounds.

ghost use Rattle.std.specs.Prelude.{◌≡◌, ◌≤◌, ◌++◌, ◌↔◌, All, length, IfOk, IsTrue, OnOk};
ghost use Rattle.std.specs.List.{position_or_len};
ghost use Rattle.plan_words.specs.Days.{IsSoundDay};
ghost use Rattle.plan_meaning.specs.Rosters.{asked};
ghost use Rattle.plan_demand.specs.Demands.{bound_of, bounds_by, code_place, need_of, needs_by, period_units, side_of, IsSmallNeed};

use crate::counts::counts;
use crate::side::{Side, free, side_of};
use model_rosters::{Grammar, List, Memory};
use plan_meaning::{Column, Forecast, Plan};
use std::alloc::Global;
use text_demand_lines::{Bound, Need};

// Returns the place of a code, or their number.
fn code_place(grammar: &Grammar, code: u8) -> u8
    requires { length grammar.now.codes ≤ 32 }
    ensures { result ≡ code_place grammar.now code }
{
    let codes = grammar.codes.as_slice();
    for (place, def) in codes.iter().enumerate() {
        if def.byte == code {
            return place as u8;
        }
    }
    codes.len() as u8
}

// Returns what an hour costs, in units a period.
fn period_units(plan: &Plan, hour: u32) -> u32
    requires { period_units plan.now hour ≤ 10000 }
    ensures { result ≡ period_units plan.now hour }
{
    (hour as u64 * plan.day.minutes as u64 / 60) as u32
}

// Returns whether what an hour costs is at most 10,000 units a period.
fn is_small(plan: &Plan, hour: u32) -> bool
    ensures { IsTrue result ↔ (period_units plan.now hour ≤ 10000) }
{
    hour as u64 * plan.day.minutes as u64 / 60 <= 10_000
}

/// Returns whether a period of a missing and of a needless employee costs at most 10,000 units.
pub fn is_small_need(plan: &Plan, need: &plan_meaning::Need) -> bool
    ensures { IsTrue result ↔ IsSmallNeed plan.now need.now }
{
    is_small(plan, need.missing) && is_small(plan, need.needless)
}

// Makes the need line of a need line and what is asked of its code.
fn need(
    alloc: Global,
    grammar: &Grammar,
    plan: &Plan,
    forecast: &Forecast,
    line: &plan_meaning::Need,
    column: &Column,
) -> Result<Need, Memory>
    requires codes { length grammar.now.codes ≤ 32 }
    requires day { IsSoundDay plan.now.day }
    requires step { 1 ≤ forecast.now.step }
    requires small { IsSmallNeed plan.now line.now }
    ensures { IfOk result (λ n. n ≡ need_of grammar.now plan.now forecast.now (record { need = line.now; column = column.now })) }
{
    let counts = counts(alloc, plan, forecast, column.need.as_slice(), 0)?;
    Ok(Need {
        code: code_place(grammar, line.code),
        under: period_units(plan, line.missing),
        over: period_units(plan, line.needless),
        counts,
    })
}

/// Makes the need lines of all need lines.
///
/// # Errors
///
/// `Memory` where memory runs out.
pub(crate) fn needs(
    alloc: Global,
    grammar: &Grammar,
    plan: &Plan,
    forecast: &Forecast,
) -> Result<List<Need>, Memory>
    requires codes { length grammar.now.codes ≤ 32 }
    requires day { IsSoundDay plan.now.day }
    requires step { 1 ≤ forecast.now.step }
    requires small { All (IsSmallNeed plan.now) plan.now.needs }
    ensures { IfOk result (λ ns. ns ≡ needs_by grammar.now plan.now forecast.now (asked plan.now.needs forecast.now.columns)) }
{
    let mut needs = List::new(alloc);
    let columns = forecast.columns.as_slice();
    for (place, line) in plan.needs.as_slice().iter().enumerate() {
        let Some(column) = columns.get(place) else {
            return Ok(needs);
        };
        needs.push(need(alloc, grammar, plan, forecast, line, column)?)?;
    }
    Ok(needs)
}

// Adds the bounds of a code, where a column says them.
fn bound(
    alloc: Global,
    grammar: &Grammar,
    plan: &Plan,
    forecast: &Forecast,
    side: Side,
    bounds: &mut List<Bound>,
    code: u8,
    numbers: &Option<List<u8>>,
) -> Result<(), Memory>
    requires codes { length grammar.now.codes ≤ 32 }
    requires day { IsSoundDay plan.now.day }
    requires step { 1 ≤ forecast.now.step }
    ensures { OnOk result (bounds.new ≡ bounds.old ++ bound_of grammar.now plan.now forecast.now side code numbers.now) }
{
    let Some(numbers) = numbers else {
        return Ok(());
    };
    let counts = counts(alloc, plan, forecast, numbers.as_slice(), free(side))?;
    bounds.push(Bound {
        code: code_place(grammar, code),
        counts,
    })
}

/// Makes the bounds of all codes of which a column says them.
///
/// # Errors
///
/// `Memory` where memory runs out.
pub(crate) fn bounds(
    alloc: Global,
    grammar: &Grammar,
    plan: &Plan,
    forecast: &Forecast,
    side: Side,
) -> Result<List<Bound>, Memory>
    requires codes { length grammar.now.codes ≤ 32 }
    requires day { IsSoundDay plan.now.day }
    requires step { 1 ≤ forecast.now.step }
    ensures { IfOk result (λ bs. bs ≡ bounds_by grammar.now plan.now forecast.now side (asked plan.now.needs forecast.now.columns)) }
{
    let mut bounds = List::new(alloc);
    let columns = forecast.columns.as_slice();
    for (place, line) in plan.needs.as_slice().iter().enumerate() {
        let Some(column) = columns.get(place) else {
            return Ok(bounds);
        };
        let numbers = side_of(side, column);
        bound(
            alloc,
            grammar,
            plan,
            forecast,
            side,
            &mut bounds,
            line.code,
            numbers,
        )?;
    }
    Ok(bounds)
}
