//! Numbers of periods, units a period, and windows.

ghost use Rattle.std.specs.Prelude.{◌≡◌, ◌≤◌};
ghost use Rattle.plan_laws.specs.Turned.{
  begin_window,
  between,
  count_of,
  end_window,
  per_period,
  turned_begins,
  turned_ends,
  turned_lengths,
  turned_pause,
};
ghost use Rattle.plan_periods.specs.FitPlans.{
  AreFitBegins,
  AreFitEnds,
  AreFitLengths,
  IsFitBegin,
  IsFitEnd,
  begin_period,
  end_period,
};

use crate::times::{begin_behind, end_behind};
use model_rosters::Window;
use plan_meaning::{Lengths, Plan, Time, Times};

/// A window that is left open: all lengths, or all periods.
const WHOLE: Window = Window { lo: 1, hi: 96 };

/// Returns so many minutes as a number of periods.
pub(crate) fn count_of(plan: &Plan, minutes: u64) -> u8
    requires some { 1 ≤ plan.now.day.minutes }
    requires few { count_of plan.now minutes ≤ 96 }
    ensures { result ≡ count_of plan.now minutes }
{
    (minutes / u64::from(plan.day.minutes)) as u8
}

/// Returns what a period costs of which an hour costs so much.
pub(crate) fn per_period(plan: &Plan, hour: u32) -> u32
    requires { per_period plan.now hour ≤ 10000 }
    ensures { result ≡ per_period plan.now hour }
{
    (u64::from(hour) * u64::from(plan.day.minutes) / 60) as u32
}

/// Returns lengths as numbers of periods.
pub(crate) fn window_of(plan: &Plan, lengths: Lengths) -> Window
    requires some { 1 ≤ plan.now.day.minutes }
    requires few { AreFitLengths plan.now lengths }
    ensures { result ≡ turned_lengths plan.now lengths }
{
    Window {
        lo: count_of(plan, u64::from(lengths.least)),
        hi: count_of(plan, u64::from(lengths.greatest)),
    }
}

// Returns the period that begins at the time.
fn begin_period(plan: &Plan, time: Time) -> u8
    requires some { 1 ≤ plan.now.day.minutes }
    requires few { IsFitBegin plan.now time }
    ensures { result ≡ begin_period plan.now time }
{
    count_of(plan, begin_behind(&plan.day, time)) + 1
}

// Returns the period that ends at the time.
fn end_period(plan: &Plan, time: Time) -> u8
    requires some { 1 ≤ plan.now.day.minutes }
    requires few { IsFitEnd plan.now time }
    ensures { result ≡ end_period plan.now time }
{
    count_of(plan, end_behind(&plan.day, time))
}

// Returns the periods that begin between two times.
fn begin_window(plan: &Plan, times: Times) -> Window
    requires some { 1 ≤ plan.now.day.minutes }
    requires from { IsFitBegin plan.now times.from }
    requires to { IsFitBegin plan.now times.to }
    ensures { result ≡ begin_window plan.now times }
{
    Window {
        lo: begin_period(plan, times.from),
        hi: begin_period(plan, times.to),
    }
}

// Returns the periods that end between two times.
fn end_window(plan: &Plan, times: Times) -> Window
    requires some { 1 ≤ plan.now.day.minutes }
    requires from { IsFitEnd plan.now times.from }
    requires to { IsFitEnd plan.now times.to }
    ensures { result ≡ end_window plan.now times }
{
    Window {
        lo: end_period(plan, times.from),
        hi: end_period(plan, times.to),
    }
}

/// Returns the periods between a begin and an end.
pub(crate) fn between(plan: &Plan, times: Times) -> Window
    requires some { 1 ≤ plan.now.day.minutes }
    requires from { IsFitBegin plan.now times.from }
    requires to { IsFitEnd plan.now times.to }
    ensures { result ≡ between plan.now times }
{
    Window {
        lo: begin_period(plan, times.from),
        hi: end_period(plan, times.to),
    }
}

/// Returns the periods in which a duty may begin.
pub(crate) fn begins(plan: &Plan, times: Option<Times>) -> Window
    requires some { 1 ≤ plan.now.day.minutes }
    requires fit { AreFitBegins plan.now times }
    ensures { result ≡ turned_begins plan.now times }
{
    match times {
        Some(times) => begin_window(plan, times),
        None => WHOLE,
    }
}

/// Returns the periods in which a duty may end.
pub(crate) fn ends(plan: &Plan, times: Option<Times>) -> Window
    requires some { 1 ≤ plan.now.day.minutes }
    requires fit { AreFitEnds plan.now times }
    ensures { result ≡ turned_ends plan.now times }
{
    match times {
        Some(times) => end_window(plan, times),
        None => WHOLE,
    }
}

/// Returns the periods in which a pause may begin, where the line says so.
pub(crate) fn pause_begins(plan: &Plan, times: Option<Times>) -> Option<Window>
    requires some { 1 ≤ plan.now.day.minutes }
    requires fit { AreFitBegins plan.now times }
    ensures { result ≡ turned_pause plan.now times }
{
    match times {
        Some(times) => Some(begin_window(plan, times)),
        None => None,
    }
}
