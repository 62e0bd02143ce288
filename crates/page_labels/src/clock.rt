//! Times and durations, read and written.

ghost use Rattle.std.specs.Prelude.{◌≡◌, ◌≤◌, ◌+◌, ◌*◌, ◌/◌, ◌%◌, ◌^◌, ◌++◌, [], ◌∷◌, OnOk};
ghost use Rattle.std.specs.Fmt.{decimal};
ghost use Rattle.text_lines.specs.Numbers.{is_digit};
ghost use Rattle.page_labels.specs.Clocks.{
  clock_of,
  day_text,
  duration_text,
  hour_text,
  is_time,
  minute_at,
  minutes_at,
  time_at,
  time_text,
  two,
  two_text,
};

use crate::fault::LabelFault;
use model_rosters::{List, Memory};
use text_lines::{put, read_within, write_number};

/// When the first period begins, and how long a period is.
#[derive(Clone, Copy, Debug, PartialEq, Eq, Drop)]
pub struct Clock {
    /// When the first period begins, in minutes behind midnight, 0 to 1,439.
    pub begin: u32,
    /// How many minutes a period has, 1 to 1,440.
    pub minutes: u32,
}

// Whether a byte is a digit.
fn is_digit(byte: u8) -> bool
    ensures { result ≡ is_digit byte }
{
    48 <= byte && byte <= 57
}

// Returns the number that two digits say.
fn two(tens: u8, ones: u8) -> u32
    ensures value { result ≡ two tens ones }
    ensures small { result ≤ 2277 }
{
    10 * tens.saturating_sub(48) as u32 + ones.saturating_sub(48) as u32
}

// Whether these are two digits, a colon and two digits.
fn is_time(g: u8, h: u8, colon: u8, a: u8, b: u8) -> bool
    ensures { result ≡ is_time g h colon a b }
{
    colon == 58 && is_digit(g) && is_digit(h) && is_digit(a) && is_digit(b)
}

// Reads the minute of the day that the five bytes of a time say.
#[tactic(auto, unfolding(crate::specs::Clocks::minute_at))]
fn minute(line: u32, g: u8, h: u8, colon: u8, a: u8, b: u8) -> Result<u32, LabelFault>
    ensures { result ≡ minute_at line g h colon a b }
{
    if !is_time(g, h, colon, a, b) {
        return Err(LabelFault::BadNumber { line });
    }
    if 23 < two(g, h) || 59 < two(a, b) {
        return Err(LabelFault::OutOfRange { line });
    }
    Ok(60 * two(g, h) + two(a, b))
}

// Reads a time, `H:MM` or `HH:MM`, as the minute of the day.
#[tactic(auto, unfolding(crate::specs::Clocks::time_at))]
fn time(line: u32, word: &[u8]) -> Result<u32, LabelFault>
    ensures { result ≡ time_at line word.now }
{
    match word {
        [h, colon, a, b] => minute(line, 48, *h, *colon, *a, *b),
        [g, h, colon, a, b] => minute(line, *g, *h, *colon, *a, *b),
        _ => Err(LabelFault::BadNumber { line }),
    }
}

// Reads how many minutes a period has.
fn minutes(line: u32, word: &[u8]) -> Result<u32, LabelFault>
    ensures { result ≡ minutes_at line word.now }
{
    let none = LabelFault::BadNumber { line };
    let outside = LabelFault::OutOfRange { line };
    match read_within(1, 1440, none, outside, word) {
        Ok(n) => Ok(n as u32),
        Err(fault) => Err(fault),
    }
}

/// Reads when the first period begins and how many minutes a period has.
///
/// # Errors
///
/// `BadNumber` where a word is no time or no number, `OutOfRange` where it is beyond its range, with the
/// line.
#[tactic(auto, unfolding(crate::specs::Clocks::clock_of))]
pub(crate) fn clock_from(line: u32, begin: &[u8], length: &[u8]) -> Result<Clock, LabelFault>
    ensures { result ≡ clock_of line begin.now length.now }
{
    let begin = time(line, begin)?;
    let minutes = minutes(line, length)?;
    Ok(Clock { begin, minutes })
}

// Returns how many minutes so many periods have.
fn minutes_of(clock: Clock, periods: u8) -> u128
    ensures value { result ≡ clock.minutes * periods }
    ensures small { result ≤ 2 ^ 40 }
{
    clock.minutes as u128 * periods as u128
}

// Returns the minute behind so many periods, from the midnight before the first of them.
fn minute_of(clock: Clock, passed: u8) -> u128
    ensures value { result ≡ clock.begin + clock.minutes * passed }
    ensures small { result ≤ 2 ^ 41 }
{
    clock.begin as u128 + minutes_of(clock, passed)
}

// Appends a number.
fn put_decimal(out: &mut List<u8>, value: u128) -> Result<(), Memory>
    requires { value ≤ 2 ^ 64 }
    ensures { OnOk result (out.new ≡ out.old ++ decimal value) }
{
    write_number(out, value as i128)?;
    Ok(())
}

// Appends two digits of a number below 100.
#[tactic(auto, unfolding(crate::specs::Clocks::two_text))]
fn put_two(out: &mut List<u8>, value: u8) -> Result<(), Memory>
    requires { value ≤ 99 }
    ensures { OnOk result (out.new ≡ out.old ++ two_text value) }
{
    put(out, &[48 + value / 10, 48 + value % 10])
}

// Appends hours and minutes.
#[tactic(auto, unfolding(crate::specs::Clocks::hour_text))]
fn put_hours(out: &mut List<u8>, hours: u128, minutes: u8) -> Result<(), Memory>
    requires hours { hours ≤ 2 ^ 64 }
    requires minutes { minutes ≤ 99 }
    ensures { OnOk result (out.new ≡ out.old ++ hour_text hours minutes) }
{
    put_decimal(out, hours)?;
    put(out, b":")?;
    put_two(out, minutes)
}

// Appends how many days have passed, where some have.
#[tactic(auto, unfolding(crate::specs::Clocks::day_text))]
fn put_day(out: &mut List<u8>, days: u128) -> Result<(), Memory>
    requires { days ≤ 2 ^ 64 }
    ensures { OnOk result (out.new ≡ out.old ++ day_text days) }
{
    if days == 0 {
        return Ok(());
    }
    put(out, b" +")?;
    put_decimal(out, days)
}

/// Appends the time behind so many periods, as `7:15`: modulo 24 hours, with ` +1` behind it after a day.
///
/// # Errors
///
/// `Memory` where memory runs out; a part may stand in `out` then.
#[tactic(auto, unfolding(crate::specs::Clocks::time_text))]
pub fn put_time(out: &mut List<u8>, clock: Clock, passed: u8) -> Result<(), Memory>
    ensures { OnOk result (out.new ≡ out.old ++ time_text clock passed) }
{
    let minute = minute_of(clock, passed);
    put_hours(out, minute / 60 % 24, (minute % 60) as u8)?;
    put_day(out, minute / 1440)
}

/// Appends how long so many periods are, as `7:30`.
///
/// # Errors
///
/// `Memory` where memory runs out; a part may stand in `out` then.
pub fn put_duration(out: &mut List<u8>, clock: Clock, periods: u8) -> Result<(), Memory>
    ensures { OnOk result (out.new ≡ out.old ++ duration_text clock periods) }
{
    let minutes = minutes_of(clock, periods);
    put_hours(out, minutes / 60, (minutes % 60) as u8)
}
