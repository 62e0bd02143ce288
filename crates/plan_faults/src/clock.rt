//! Lengths and times, as they are told.

ghost use Rattle.std.specs.Prelude.{◌≡◌, ◌≤◌, ◌/◌, ◌%◌, ◌++◌, OnOk};
ghost use Rattle.plan_faults.specs.Clocks.{begin_text, clock_text, end_text, next_day_text, two_text};

use crate::counts::put_number;
use model_rosters::{List, Memory};
use text_lines::put;

/// The minutes from one midnight to the next.
const CLOCK_DAY: u64 = 1440;

// Appends two digits of a number below 100.
#[tactic(auto, unfolding(crate::specs::Clocks::two_text))]
fn put_two(out: &mut List<u8>, value: u8) -> Result<(), Memory>
    requires { value ≤ 99 }
    ensures { OnOk result (out.new ≡ out.old ++ two_text value) }
{
    put(out, &[48 + value / 10, 48 + value % 10])
}

/// Appends so many minutes as hours and minutes, as `7:05`: a length, or a time by the clock.
///
/// # Errors
///
/// `Memory` where memory runs out; a part may stand in `out` then.
pub fn put_clock(out: &mut List<u8>, minutes: u64) -> Result<(), Memory>
    ensures { OnOk result (out.new ≡ out.old ++ clock_text minutes) }
{
    put_number(out, minutes / 60)?;
    put(out, b":")?;
    put_two(out, (minutes % 60) as u8)
}

// Appends a time of the next day.
fn put_next_day(out: &mut List<u8>, minutes: u64) -> Result<(), Memory>
    requires { 1440 ≤ minutes }
    ensures { OnOk result (out.new ≡ out.old ++ next_day_text minutes) }
{
    put_clock(out, minutes - CLOCK_DAY)?;
    put(out, b"+1")
}

/// Appends the time so many minutes behind the midnight before the day, as the begin of something: `7:05`,
/// and the next day's `0:00+1`.
///
/// # Errors
///
/// `Memory` where memory runs out; a part may stand in `out` then.
#[tactic(auto, unfolding(crate::specs::Clocks::begin_text))]
pub fn put_begin(out: &mut List<u8>, minutes: u64) -> Result<(), Memory>
    ensures { OnOk result (out.new ≡ out.old ++ begin_text minutes) }
{
    if minutes < CLOCK_DAY {
        return put_clock(out, minutes);
    }
    put_next_day(out, minutes)
}

/// Appends the time so many minutes behind the midnight before the day, as the end of something: `7:05`, at
/// midnight `24:00`, and the next day's `7:05+1`.
///
/// # Errors
///
/// `Memory` where memory runs out; a part may stand in `out` then.
#[tactic(auto, unfolding(crate::specs::Clocks::end_text))]
pub fn put_end(out: &mut List<u8>, minutes: u64) -> Result<(), Memory>
    ensures { OnOk result (out.new ≡ out.old ++ end_text minutes) }
{
    if minutes <= CLOCK_DAY {
        return put_clock(out, minutes);
    }
    put_next_day(out, minutes)
}
