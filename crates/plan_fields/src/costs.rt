//! What a period costs.

ghost use Rattle.std.specs.Prelude.{◌≡◌, ◌≤◌, ◌^◌};
ghost use Rattle.plan_fields.specs.Costs.{
  costly_period,
  extra_hour,
  extras_hour,
  lies_within,
  period_units,
  told,
};

use plan_meaning::{Extra, Times};
use plan_words::Day;

/// A period costs at most so many units.
const MOST_UNITS: u128 = 10_000;

// Whether a period that begins so many minutes behind the day's begin lies between two times.
fn lies_within(day: &Day, times: &Times, moment: u64) -> bool
    requires { moment ≤ 2 ^ 32 }
    ensures { result ≡ lies_within day.now times.now moment }
{
    day.begin_behind(&times.from) <= moment
        && moment + day.minutes() as u64 <= day.end_behind(&times.to)
}

// Returns how much more by a line an hour of a code costs at a moment.
fn extra_hour(day: &Day, code: u8, moment: u64, extra: &Extra) -> u32
    requires { moment ≤ 2 ^ 32 }
    ensures { result ≡ extra_hour day.now code moment extra.now }
{
    if extra.code == code && lies_within(day, &extra.times, moment) {
        extra.hour
    } else {
        0
    }
}

// Returns how much more an hour of a code costs at a moment.
fn extras_hour(day: &Day, extras: &[Extra], code: u8, moment: u64) -> u128
    requires { moment ≤ 2 ^ 32 }
    ensures value { result ≡ extras_hour day.now code moment extras.now }
    ensures small { result ≤ 2 ^ 96 }
{
    let mut sum: u128 = 0;
    for extra in extras {
        sum += extra_hour(day, code, moment, extra) as u128;
    }
    sum
}

// Returns how many units a period of a code costs that begins so many minutes behind the day's begin.
fn period_units(day: &Day, extras: &[Extra], code: u8, hour: u64, moment: u64) -> u128
    requires { moment ≤ 2 ^ 32 }
    ensures { result ≡ period_units day.now extras.now code hour moment }
{
    (hour as u128 + extras_hour(day, extras, code, moment)) * day.minutes() as u128 / 60
}

/// Returns what the first period of a code costs that costs too many units, where an hour of it costs so much
/// and more by some lines; nothing where none does.
pub fn costly_period(day: &Day, extras: &[Extra], code: u8, hour: u64) -> Option<u128>
    ensures { result ≡ costly_period day.now extras.now code hour }
{
    for passed in 0..day.periods() {
        let moment = passed as u64 * day.minutes() as u64;
        let units = period_units(day, extras, code, hour, moment);
        if MOST_UNITS < units {
            return Some(units);
        }
    }
    None
}

/// Returns how many units are told: so many, or 2^64 - 1 where they are more.
pub fn told(units: u128) -> u64
    ensures { result ≡ told units }
{
    units.min(u64::MAX as u128) as u64
}
