//! Times as minutes behind the day's begin.

ghost use Rattle.std.specs.Prelude.{◌≡◌, ◌≤◌, ◌+◌};
ghost use Rattle.plan_meaning.specs.Times.{begin_behind, begin_minute, behind_begin, day_length, end_behind, shown_behind, shown_next};

use plan_meaning::{PlanDay, Time};

/// The minutes from one midnight to the next.
pub(crate) const CLOCK_DAY: u32 = 1440;

/// Returns the minute behind midnight at which the day begins.
pub fn begin_minute(day: &PlanDay) -> u32
    ensures value { result ≡ begin_minute day.now }
    ensures small { result ≤ 1439 }
{
    day.begin % CLOCK_DAY
}

// Returns how far behind the day's begin the clock first shows a minute.
fn shown_behind(day: &PlanDay, minute: u32) -> u64
    ensures value { result ≡ shown_behind day.now minute }
    ensures small { result ≤ 1439 }
{
    (minute as u64 + (CLOCK_DAY - begin_minute(day)) as u64) % CLOCK_DAY as u64
}

// Returns how far behind the day's begin the clock shows a minute on the next day.
fn shown_next(day: &PlanDay, minute: u32) -> u64
    ensures value { result ≡ shown_next day.now minute }
    ensures small { result ≤ 1440 + minute }
{
    CLOCK_DAY as u64 + minute as u64 - begin_minute(day) as u64
}

// Where the clock shows a time at once, it shows it next a day later.
fn behind_begin(shown: u64) -> u64
    requires { shown ≤ 1439 }
    ensures value { result ≡ behind_begin shown }
    ensures small { result ≤ 1440 }
{
    match shown {
        0 => CLOCK_DAY as u64,
        _ => shown,
    }
}

/// Returns how many minutes behind the day's begin a time is, as the begin of something.
pub fn begin_behind(day: &PlanDay, time: &Time) -> u64
    ensures value { result ≡ begin_behind day.now time.now }
    ensures small { result ≤ 1440 + time.now.minute }
{
    if time.next_day {
        shown_next(day, time.minute)
    } else {
        shown_behind(day, time.minute)
    }
}

/// Returns how many minutes behind the day's begin a time is, as the end of something.
pub(crate) fn end_behind(day: &PlanDay, time: &Time) -> u64
    ensures value { result ≡ end_behind day.now time.now }
    ensures small { result ≤ 1440 + time.now.minute }
{
    if time.next_day {
        shown_next(day, time.minute)
    } else {
        behind_begin(shown_behind(day, time.minute))
    }
}

/// Returns how many minutes the day has.
pub fn day_length(day: &PlanDay) -> u32
    requires { day.now.end.minute ≤ 1440 }
    ensures value { result ≡ day_length day.now }
    ensures small { result ≤ 2880 }
{
    end_behind(day, &day.end) as u32
}
