//! A whole plan.

ghost use Rattle.std.specs.Prelude.{◌≡◌, ◌≤◌, All, IfOk, map};
ghost use Rattle.plan_meaning.specs.Times.{periods};
ghost use Rattle.plan_meaning.specs.Whole.{IsFirstStart, IsWholePlan};
ghost use Rattle.plan_laws.specs.Turned.{turned, turned_extra};
ghost use Rattle.plan_periods.specs.FitPlans.{IsFitExtra, IsFitPlan};

use crate::duties::period_activities;
use crate::numbers::{between, count_of, per_period};
use crate::starts::{first_start, starts_of};
use crate::times::day_length;
use model_rosters::{List, Memory};
use plan_laws::{PeriodExtra, PeriodPlan};
use plan_meaning::{Extra, Plan};
use std::alloc::Global;

/// The letter of time off.
const OFF: u8 = b'.';

// Returns where a code costs more.
fn period_extra(plan: &Plan, extra: &Extra) -> PeriodExtra
    requires some { 1 ≤ plan.now.day.minutes }
    requires fit { IsFitExtra plan.now extra.now }
    ensures { result ≡ turned_extra plan.now extra.now }
{
    PeriodExtra {
        code: extra.code,
        periods: between(plan, extra.times),
        amount: per_period(plan, extra.hour),
    }
}

// Returns where codes cost more.
fn period_extras(alloc: Global, plan: &Plan, extras: &[Extra]) -> Result<List<PeriodExtra>, Memory>
    requires some { 1 ≤ plan.now.day.minutes }
    requires fit { All (IsFitExtra plan.now) extras.now }
    ensures { IfOk result (λ all. all ≡ map (turned_extra plan.now) extras.now) }
{
    let mut all = List::new(alloc);
    for extra in extras {
        all.push(period_extra(plan, extra))?;
    }
    Ok(all)
}

// Returns how many periods the day has.
fn periods_of(plan: &Plan) -> u8
    requires { IsWholePlan plan.now }
    ensures { result ≡ periods plan.now }
{
    count_of(plan, day_length(&plan.day))
}

/// Returns the plan in numbers of periods and in units a period, with the first start by the clock.
///
/// # Errors
///
/// `Memory` where memory runs out.
pub fn period_plan(alloc: Global, plan: &Plan) -> Result<PeriodPlan, Memory>
    requires { IsFitPlan plan.now }
    ensures is { IfOk result (λ own. own ≡ turned plan.now own.first_start) }
    ensures first { IfOk result (λ own. IsFirstStart plan.now plan.now.starts own.first_start) }
{
    let activities = period_activities(alloc, plan)?;
    let extras = period_extras(alloc, plan, plan.extras.as_slice())?;
    Ok(PeriodPlan {
        periods: periods_of(plan),
        off: OFF,
        activities,
        extras,
        change: plan.change,
        starts: starts_of(plan),
        first_start: first_start(plan),
    })
}
