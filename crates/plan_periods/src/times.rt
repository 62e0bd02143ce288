//! Times by the clock, as minutes behind the day's begin.

ghost use Rattle.std.specs.Prelude.{◌≡◌, ◌<◌, ◌≤◌};
ghost use Rattle.plan_meaning.specs.Times.{
  begin_behind,
  behind_begin,
  begin_minute,
  day_length,
  end_behind,
  shown_behind,
  shown_next,
};

use plan_meaning::{PlanDay, Time};

/// The minutes from one midnight to the next.
const CLOCK_DAY: u64 = 1440;

/// Returns the minute behind midnight at which the day begins.
pub(crate) fn begin_minute(day: &PlanDay) -> u64
    ensures is { result ≡ begin_minute day.now }
    ensures below { result < 1440 }
{
    u64::from(day.begin) % CLOCK_DAY
}

// Returns behind how many minutes the clock shows the minute for the first time, from the day's begin on.
fn shown_behind(day: &PlanDay, minute: u32) -> u64
    ensures { result ≡ shown_behind day.now minute }
{
    (u64::from(minute) + (CLOCK_DAY - begin_minute(day))) % CLOCK_DAY
}

// Returns behind how many minutes the clock shows the minute on the day after the one on which the day
// begins.
fn shown_next(day: &PlanDay, minute: u32) -> u64
    ensures { result ≡ shown_next day.now minute }
{
    CLOCK_DAY + u64::from(minute) - begin_minute(day)
}

/// Returns behind how many minutes something begins that begins at the time.
pub(crate) fn begin_behind(day: &PlanDay, time: Time) -> u64
    ensures { result ≡ begin_behind day.now time }
{
    if time.next_day {
        shown_next(day, time.minute)
    } else {
        shown_behind(day, time.minute)
    }
}

// Returns a day where the clock shows the minute at once, else how many minutes later it does.
fn behind_begin(minutes: u64) -> u64
    ensures { result ≡ behind_begin minutes }
{
    if minutes == 0 { CLOCK_DAY } else { minutes }
}

/// Returns behind how many minutes something ends that ends at the time.
pub(crate) fn end_behind(day: &PlanDay, time: Time) -> u64
    ensures { result ≡ end_behind day.now time }
{
    if time.next_day {
        shown_next(day, time.minute)
    } else {
        behind_begin(shown_behind(day, time.minute))
    }
}

/// Returns how many minutes the day has.
pub(crate) fn day_length(day: &PlanDay) -> u64
    ensures { result ≡ day_length day.now }
{
    end_behind(day, day.end)
}
