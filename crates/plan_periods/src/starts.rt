//! When duties start.

ghost use Rattle.std.specs.Prelude.{◌≡◌, ◌≤◌, ◌+◌, ◌%◌, ℕ, Some};
ghost use Rattle.plan_meaning.specs.Times.{begin_minute, moment};
ghost use Rattle.plan_meaning.specs.Whole.{AreWholeStarts, IsFirstStart, IsWholePlan};
ghost use Rattle.plan_laws.specs.Turned.{turned_starts};

use crate::numbers::count_of;
use crate::times::begin_minute;
use plan_meaning::Plan;

/// The number of periods that no day passes.
const MOST_PERIODS: u8 = 96;

// Returns by how many minutes a period that begins behind so many others is behind a multiple of so many
// minutes by the clock.
fn minutes_past(plan: &Plan, starts: u32, first: u8) -> u64
    requires { 1 ≤ starts }
    ensures { result ≡ (begin_minute plan.now.day + moment plan.now first) % starts }
{
    let behind = u64::from(first) * u64::from(plan.day.minutes);
    (begin_minute(&plan.day) + behind) % u64::from(starts)
}

// Returns how many periods are before the first one that begins at a multiple of so many minutes by the
// clock.
fn first_multiple(plan: &Plan, starts: u32) -> u8
    requires some { 1 ≤ plan.now.day.minutes }
    requires few { turned_starts plan.now (Some starts) ≤ 96 }
    requires whole { AreWholeStarts plan.now (Some starts) }
    requires begins { (first : ℕ) × IsFirstStart plan.now (Some starts) first }
    ensures first { IsFirstStart plan.now (Some starts) result }
    ensures few { result ≤ 96 }
{
    for first in 0..MOST_PERIODS {
        if minutes_past(plan, starts, first) == 0 {
            return first;
        }
    }
    MOST_PERIODS
}

/// Returns how many periods are before the first start: none where the plan says nothing of starts.
pub(crate) fn first_start(plan: &Plan) -> u8
    requires whole { IsWholePlan plan.now }
    requires few { turned_starts plan.now plan.now.starts ≤ 96 }
    ensures { IsFirstStart plan.now plan.now.starts result }
{
    match plan.starts {
        Some(starts) => first_multiple(plan, starts),
        None => 0,
    }
}

/// Returns every how many periods duties may start: 1 where the plan says nothing of starts.
pub(crate) fn starts_of(plan: &Plan) -> u8
    requires some { 1 ≤ plan.now.day.minutes }
    requires few { turned_starts plan.now plan.now.starts ≤ 96 }
    ensures { result ≡ turned_starts plan.now plan.now.starts }
{
    match plan.starts {
        Some(starts) => count_of(plan, u64::from(starts)),
        None => 1,
    }
}
