//! Times of the day that words say.

ghost use Rattle.std.specs.Prelude.{◌≡◌, ◌≤◌, ◌+◌, IfOk, IfSome};
ghost use Rattle.plan_meaning.specs.Times.{begin_minute, day_length};
ghost use Rattle.plan_words.specs.TimeWords.{as_time, begin_at, clock_time, end_at, marked_time, outside_day, time_at, time_or};

use crate::day::Day;
use crate::digits::minutes_at;
use crate::fault::WordFault;
use plan_meaning::Time;

// Takes minutes to 24:00 as a time.
#[tactic(auto, unfolding(crate::specs::TimeWords::as_time))]
fn as_time(next_day: bool, minute: Option<u32>) -> Option<Time>
    ensures value { result ≡ as_time next_day minute }
    ensures small { IfSome result (λ t. t.minute ≤ 1440) }
{
    match minute {
        Some(minute) if minute <= 1440 => Some(Time { minute, next_day }),
        _ => None,
    }
}

// Takes minutes as a time of the next day, where `+1` stands behind them.
#[tactic(auto, unfolding(crate::specs::TimeWords::marked_time))]
fn marked_time(plus: u8, one: u8, minute: Option<u32>) -> Option<Time>
    ensures value { result ≡ marked_time plus one minute }
    ensures small { IfSome result (λ t. t.minute ≤ 1440) }
{
    if plus == 43 && one == 49 {
        as_time(true, minute)
    } else {
        None
    }
}

// Reads a time, `H:MM` or `HH:MM` to 24:00, behind which `+1` may stand.
#[tactic(auto, unfolding(crate::specs::TimeWords::time_at))]
fn time_of(word: &[u8]) -> Option<Time>
    ensures value { result ≡ time_at word.now }
    ensures small { IfSome result (λ t. t.minute ≤ 1440) }
{
    match word {
        [h, colon, a, b] => as_time(false, minutes_at(48, *h, *colon, *a, *b)),
        [g, h, colon, a, b] => as_time(false, minutes_at(*g, *h, *colon, *a, *b)),
        [h, colon, a, b, plus, one] => {
            marked_time(*plus, *one, minutes_at(48, *h, *colon, *a, *b))
        }
        [g, h, colon, a, b, plus, one] => {
            marked_time(*plus, *one, minutes_at(*g, *h, *colon, *a, *b))
        }
        _ => None,
    }
}

/// Reads a time, `H:MM` or `HH:MM` to 24:00, behind which `+1` may stand.
///
/// # Errors
///
/// `NoTime` where the word is none.
#[tactic(auto, unfolding(crate::specs::TimeWords::time_or))]
pub fn time(word: &[u8]) -> Result<Time, WordFault>
    ensures value { result ≡ time_or (time_at word.now) }
    ensures small { IfOk result (λ t. t.minute ≤ 1440) }
{
    match time_of(word) {
        Some(time) => Ok(time),
        None => Err(WordFault::NoTime),
    }
}

/// Reads a time of the clock, `H:MM` or `HH:MM` to 24:00, in minutes behind midnight.
///
/// # Errors
///
/// `NoTime` where the word is none, or has `+1`.
#[tactic(auto, unfolding(crate::specs::TimeWords::clock_time))]
pub fn clock_time(word: &[u8]) -> Result<u32, WordFault>
    ensures value { result ≡ clock_time word.now }
    ensures small { IfOk result (λ n. n ≤ 1440) }
{
    match time_of(word) {
        Some(
            Time {
                minute,
                next_day: false,
            },
        ) => Ok(minute),
        _ => Err(WordFault::NoTime),
    }
}

// The fault of a time outside the day.
fn outside_day(day: &Day) -> WordFault
    ensures { result ≡ outside_day day.now }
{
    let begin = day.begin();
    WordFault::OutsideDay {
        begin,
        end: begin + day.length(),
    }
}

// The fault of a time at which no period begins or ends.
fn no_begin(day: &Day) -> WordFault
    ensures { result ≡ WordFault.NoBegin day.now.minutes (begin_minute day.now) }
{
    WordFault::NoBegin {
        minutes: day.minutes(),
        begin: day.begin(),
    }
}

/// Reads a time at which a period of the day begins.
///
/// # Errors
///
/// `NoTime` where the word is none; then `OutsideDay` where the day is over, and `NoBegin` where no period
/// begins then.
#[tactic(auto, unfolding(crate::specs::TimeWords::begin_at))]
pub fn begin(day: &Day, word: &[u8]) -> Result<Time, WordFault>
    ensures value { result ≡ begin_at day.now word.now }
    ensures small { IfOk result (λ t. t.minute ≤ 1440) }
{
    let Some(time) = time_of(word) else {
        return Err(WordFault::NoTime);
    };
    let behind = day.begin_behind(&time);
    if day.length() as u64 <= behind {
        return Err(outside_day(day));
    }
    if behind % day.minutes() as u64 != 0 {
        return Err(no_begin(day));
    }
    Ok(time)
}

/// Reads a time at which a period of the day ends.
///
/// # Errors
///
/// `NoTime` where the word is none; then `OutsideDay` where the day is over, and `NoBegin` where no period
/// ends then.
#[tactic(auto, unfolding(crate::specs::TimeWords::end_at))]
pub fn end(day: &Day, word: &[u8]) -> Result<Time, WordFault>
    ensures value { result ≡ end_at day.now word.now }
    ensures small { IfOk result (λ t. t.minute ≤ 1440) }
{
    let Some(time) = time_of(word) else {
        return Err(WordFault::NoTime);
    };
    let behind = day.end_behind(&time);
    if (day.length() as u64) < behind {
        return Err(outside_day(day));
    }
    if behind % day.minutes() as u64 != 0 {
        return Err(no_begin(day));
    }
    Ok(time)
}
