//! The times on the axes.

ghost use Rattle.std.specs.Prelude.{◌≡◌, ◌≤◌, ◌+◌, ◌*◌, ◌^◌, map, IfOk};
ghost use Rattle.page_parts.specs.Elements.{places};
ghost use Rattle.page_rosters.specs.AxisTimes.{
  axis_time,
  axis_times,
  is_hour,
  is_hourly,
  is_late,
  is_regular,
  is_shown,
  late_step,
  plain_step,
  step_at,
};

use model_rosters::{List, Memory};
use page_labels::{Clock, put_time};
use std::alloc::Global;

// Returns how many minutes so many periods have.
fn length_of(clock: Clock, periods: u8) -> u64
    ensures value { result ≡ clock.minutes * periods }
    ensures small { result ≤ 2 ^ 40 }
{
    u64::from(clock.minutes) * u64::from(periods)
}

// Whether the last period ends at midnight or behind it, so that ` +1` stands behind some times.
fn is_late(clock: Clock, periods: u8) -> bool
    ensures { result ≡ is_late clock periods }
{
    1440 <= clock.begin as u64 + length_of(clock, periods)
}

// Returns at every how many of so many periods there are 40 pixels for a time.
fn plain_step(periods: u8) -> u8
    ensures value { result ≡ plain_step periods }
    ensures some { 1 ≤ result }
{
    if periods < 19 {
        1
    } else if periods < 38 {
        2
    } else {
        4
    }
}

// Returns at every how many of so many periods there are 48 pixels for a time with ` +1`.
fn late_step(periods: u8) -> u8
    ensures value { result ≡ late_step periods }
    ensures some { 1 ≤ result }
{
    if periods < 31 {
        2
    } else if periods < 62 {
        4
    } else {
        8
    }
}

// Returns at every how many of so many periods a time has room.
#[tactic(auto, unfolding(crate::specs::AxisTimes::step_at))]
fn step_at(clock: Clock, periods: u8) -> u8
    ensures value { result ≡ step_at clock periods }
    ensures some { 1 ≤ result }
{
    if is_late(clock, periods) {
        late_step(periods)
    } else {
        plain_step(periods)
    }
}

// Whether whole hours begin periods, and have room, where not each period has a time.
fn is_hourly(clock: Clock, periods: u8) -> bool
    ensures { result ≡ is_hourly clock periods }
{
    let minutes = clock.minutes.max(1);
    let step = step_at(clock, periods) as u32;
    1 < step
        && 60 % minutes == 0
        && clock.begin % minutes == 0
        && step <= 60 / minutes
        && 60 / minutes < 25
}

// Whether the period behind so many begins with a whole hour.
fn is_hour(clock: Clock, place: u8) -> bool
    ensures { result ≡ is_hour clock place }
{
    (clock.begin as u64 + length_of(clock, place)) % 60 == 0
}

// Whether a time would stand where the period behind so many begins, if there were room before and behind it.
fn is_regular(clock: Clock, periods: u8, place: u8) -> bool
    ensures { result ≡ is_regular clock periods place }
{
    if is_hourly(clock, periods) {
        is_hour(clock, place)
    } else {
        place % step_at(clock, periods) == 0
    }
}

// Whether a time stands where the period behind so many begins.
fn is_shown(clock: Clock, periods: u8, place: u8) -> bool
    ensures { result ≡ is_shown clock periods place }
{
    let step = step_at(clock, periods);
    place == 0
        || is_regular(clock, periods, place)
            && step <= place
            && place as u32 + step as u32 <= periods as u32
}

// Returns the time where the period behind so many begins, or nothing.
#[tactic(auto, unfolding(crate::specs::AxisTimes::axis_time))]
fn axis_time(alloc: Global, clock: Clock, periods: u8, place: u8) -> Result<List<u8>, Memory>
    ensures { IfOk result (λ text. text ≡ axis_time clock periods place) }
{
    let mut text = List::new(alloc);
    if is_shown(clock, periods, place) {
        put_time(&mut text, clock, place)?;
    }
    Ok(text)
}

// Returns for each period its time or nothing.
fn begin_times(alloc: Global, clock: Clock, periods: u8) -> Result<List<List<u8>>, Memory>
    ensures { IfOk result (λ times. times ≡ map (axis_time clock periods) (places periods)) }
{
    let mut times = List::new(alloc);
    for place in 0..periods {
        times.push(axis_time(alloc, clock, periods, place)?)?;
    }
    Ok(times)
}

// Returns for each period its time or nothing, and behind them when the last one ends.
fn clock_times(alloc: Global, clock: Clock, periods: u8) -> Result<List<List<u8>>, Memory>
    ensures { IfOk result (λ times. times ≡ axis_times (Some clock) periods) }
{
    let mut times = begin_times(alloc, clock, periods)?;
    let mut end = List::new(alloc);
    put_time(&mut end, clock, periods)?;
    times.push(end)?;
    Ok(times)
}

/// Returns for each period the time that stands on the axes of the charts where it begins, or nothing: at
/// each period that has room, else at whole hours, where they begin periods and have room, else at every so
/// many periods, and in any case at the first one. Behind them stands when the last period ends. Without a
/// clock there is none at all.
///
/// # Errors
///
/// `Memory` where memory runs out; nothing is kept then.
pub fn axis_times(
    alloc: Global,
    clock: Option<Clock>,
    periods: u8,
) -> Result<List<List<u8>>, Memory>
    ensures { IfOk result (λ times. times ≡ axis_times clock periods) }
{
    match clock {
        None => Ok(List::new(alloc)),
        Some(clock) => clock_times(alloc, clock, periods),
    }
}
