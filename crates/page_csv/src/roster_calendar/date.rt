//! Days of the calendar.

ghost use Rattle.std.specs.Prelude.{◌≡◌, ◌+◌, ◌<◌, ◌≤◌, ◌++◌, pos, length, OnOk};
ghost use Rattle.std.specs.List.{list_all};
ghost use Rattle.jiff_core.specs.Calendar.{is_leap_year};
ghost use Rattle.page_labels.specs.Clocks.{two_text};
ghost use Rattle.text_lines.specs.Numbers.{is_digit};
ghost use Rattle.page_csv.specs.roster_calendar.Dates.{
  date_of,
  date_text,
  day_after,
  day_of,
  has_form,
  month_days,
  next_day,
  two_at,
  year_text,
};

use model_rosters::{List, Memory};
use text_lines::put;

/// A day of the calendar.
#[derive(Clone, Copy, Debug, PartialEq, Eq, Drop)]
pub struct Date {
    /// The year, from 1.
    pub year: u32,
    /// The month, 1 to 12.
    pub month: u8,
    /// The day of the month, 1 to 31.
    pub day: u8,
}

// Whether a year has a 29 February.
fn is_leap_year(year: u32) -> bool
    ensures { result ≡ is_leap_year (pos year) }
{
    year % 4 == 0 && (year % 100 != 0 || year % 400 == 0)
}

// Returns how many days February has.
fn february_days(year: u32) -> u8
    ensures { result ≡ month_days year 2 }
{
    if is_leap_year(year) { 29 } else { 28 }
}

// Returns how many days a month has.
fn month_days(year: u32, month: u8) -> u8
    ensures { result ≡ month_days year month }
{
    match month {
        2 => february_days(year),
        4 | 6 | 9 | 11 => 30,
        _ => 31,
    }
}

// Returns the next day.
#[tactic(auto, unfolding(crate::specs::roster_calendar::Dates::next_day))]
fn next_day(date: Date) -> Date
    ensures { result ≡ next_day date }
{
    if date.day < month_days(date.year, date.month) {
        return Date {
            year: date.year,
            month: date.month,
            day: date.day + 1,
        };
    }
    if date.month < 12 {
        return Date {
            year: date.year,
            month: date.month + 1,
            day: 1,
        };
    }
    Date {
        year: date.year.saturating_add(1),
        month: 1,
        day: 1,
    }
}

/// Returns the day so many days later.
pub(crate) fn day_after(date: Date, days: u64) -> Date
    ensures { result ≡ day_after days date }
{
    let mut day = date;
    for _ in 0..days {
        day = next_day(day);
    }
    day
}

/// Appends two digits of a number below 100.
///
/// # Errors
///
/// `Memory` where memory runs out; `out` is as it was before then.
#[tactic(auto, unfolding(page_labels::specs::Clocks::two_text))]
pub(crate) fn put_two(out: &mut List<u8>, value: u8) -> Result<(), Memory>
    ensures { OnOk result (out.new ≡ out.old ++ two_text value) }
{
    put(out, &[48 + value / 10, 48 + value % 10])
}

// Appends the last four digits of a year.
#[tactic(auto, unfolding(crate::specs::roster_calendar::Dates::year_text))]
fn put_year(out: &mut List<u8>, year: u32) -> Result<(), Memory>
    ensures { OnOk result (out.new ≡ out.old ++ year_text year) }
{
    put_two(out, (year / 100 % 100) as u8)?;
    put_two(out, (year % 100) as u8)
}

/// Appends a day, as `20260131`.
///
/// # Errors
///
/// `Memory` where memory runs out; a part may stand in `out` then.
#[tactic(auto, unfolding(crate::specs::roster_calendar::Dates::date_text))]
pub(crate) fn put_date(out: &mut List<u8>, date: Date) -> Result<(), Memory>
    ensures { OnOk result (out.new ≡ out.old ++ date_text date) }
{
    put_year(out, date.year)?;
    put_two(out, date.month)?;
    put_two(out, date.day)
}

// Returns the number that two digits of a text say, from a place on.
fn two_at(text: &[u8], place: usize) -> u32
    requires { place + 1 < length text.now }
    ensures value { result ≡ two_at text.now place }
    ensures small { result ≤ 2277 }
{
    10 * text[place].saturating_sub(48) as u32 + text[place + 1].saturating_sub(48) as u32
}

// Whether all bytes are digits.
fn are_digits(bytes: &[u8]) -> bool
    ensures { result ≡ list_all is_digit bytes.now }
{
    bytes.iter().all(|byte| 48 <= *byte && *byte <= 57)
}

// Whether ten bytes are digits, and hyphens behind the year and the month.
fn has_form(text: &[u8]) -> bool
    requires { length text.now ≡ 10 }
    ensures { result ≡ has_form text.now }
{
    text[4] == b'-'
        && text[7] == b'-'
        && are_digits(&text[..4])
        && are_digits(&text[5..7])
        && are_digits(&text[8..])
}

// Returns the day of a year from 1 to 9998, where the calendar has it.
#[tactic(auto, unfolding(crate::specs::roster_calendar::Dates::day_of))]
fn day_of(year: u32, month: u32, day: u32) -> Option<Date>
    ensures { result ≡ day_of year month day }
{
    if year < 1 || 9998 < year || month < 1 || 12 < month {
        return None;
    }
    let month = month as u8;
    let last = month_days(year, month);
    if day < 1 || u32::from(last) < day {
        return None;
    }
    Some(Date {
        year,
        month,
        day: day as u8,
    })
}

/// Returns the day that a text says, exactly as `2026-01-31`, of a year from 1 to 9998; `None` where it says
/// none.
#[tactic(auto, unfolding(crate::specs::roster_calendar::Dates::date_of))]
pub fn date_of(text: &[u8]) -> Option<Date>
    ensures { result ≡ date_of text.now }
{
    if text.len() != 10 {
        return None;
    }
    if !has_form(text) {
        return None;
    }
    let year = 100 * two_at(text, 0) + two_at(text, 2);
    day_of(year, two_at(text, 5), two_at(text, 8))
}
