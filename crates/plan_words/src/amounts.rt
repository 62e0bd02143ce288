//! Amounts in units.

ghost use Rattle.std.specs.Prelude.{◌≡◌, ◌≤◌, ◌<◌, ◌==◌, ◌*◌, ◌^◌, drop, length, take, IfOk};
ghost use Rattle.std.specs.List.{list_all, position_or_len};
ghost use Rattle.text_lines.specs.Numbers.{is_digit};
ghost use Rattle.plan_words.specs.Amounts.{amount_at, amount_of, are_decimals, by_threes, by_twos, cost_at, decimal_count, even_step, hour_at, hour_of, is_point, scale, scale_left, thousandths, uneven, units_of};

use crate::day::Day;
use crate::digits::{digit, is_digit};
use crate::fault::WordFault;
use text_lines::read_within;

/// What a line costs, a change and a period is at most so many units.
const MOST_UNITS: u64 = 10_000;

// Returns the place of the first point, or the length.
fn point_at(word: &[u8]) -> usize
    ensures place { result ≡ position_or_len is_point word.now }
    ensures bound { result ≤ length word.now }
{
    for (i, byte) in word.iter().enumerate() {
        if *byte == b'.' {
            return i;
        }
    }
    word.len()
}

// Whether all bytes are digits.
fn are_digits(word: &[u8]) -> bool
    ensures { result ≡ list_all is_digit word.now }
{
    word.iter().all(|byte| is_digit(*byte))
}

// Whether this is nothing, or a point and digits.
#[tactic(auto, unfolding(crate::specs::Amounts::are_decimals))]
fn are_decimals(point: &[u8]) -> bool
    ensures { result ≡ are_decimals point.now }
{
    match point {
        [] => true,
        [_, digits @ ..] => 0 < digits.len() && are_digits(digits),
    }
}

// Returns how many decimals stand behind the point.
#[tactic(auto, unfolding(crate::specs::Amounts::decimal_count))]
fn decimal_count(point: &[u8]) -> u64
    ensures { result ≡ decimal_count point.now }
{
    match point {
        [] => 0,
        [_, digits @ ..] => digits.len() as u64,
    }
}

// Returns how many units a whole has at so many decimals, 0 to 3.
#[tactic(auto, unfolding(crate::specs::Amounts::scale))]
fn scale(decimals: u8) -> u64
    ensures value { result ≡ scale decimals }
    ensures small { result ≤ 1000 }
{
    match decimals {
        0 => 1,
        1 => 10,
        2 => 100,
        _ => 1000,
    }
}

// Returns how many thousandths a unit has at so many decimals, 0 to 3.
#[tactic(auto, unfolding(crate::specs::Amounts::scale_left))]
fn scale_left(decimals: u8) -> u64
    ensures value { result ≡ scale_left decimals }
    ensures some { 1 ≤ result }
{
    match decimals {
        0 => 1000,
        1 => 100,
        2 => 10,
        _ => 1,
    }
}

// Returns the thousandths that a point and at most three digits say.
#[tactic(auto, unfolding(crate::specs::Amounts::thousandths))]
fn thousandths(point: &[u8]) -> u64
    ensures value { result ≡ thousandths point.now }
    ensures small { result ≤ 30000 }
{
    match point {
        [_, a] => 100 * digit(*a) as u64,
        [_, a, b] => 100 * digit(*a) as u64 + 10 * digit(*b) as u64,
        [_, a, b, c] => 100 * digit(*a) as u64 + 10 * digit(*b) as u64 + digit(*c) as u64,
        _ => 0,
    }
}

// Returns the units of a whole number and what stands behind it.
#[tactic(auto, unfolding(crate::specs::Amounts::units_of))]
fn units_of(decimals: u8, whole: u128, point: &[u8]) -> Result<u64, WordFault>
    requires { whole ≤ 9999999 }
    ensures value { result ≡ units_of decimals whole point.now }
    ensures small { IfOk result (λ units. units ≤ 2 ^ 40) }
{
    if !are_decimals(point) {
        return Err(WordFault::NoAmount);
    }
    let found = decimal_count(point);
    if (decimals as u64) < found {
        return Err(WordFault::Decimals {
            found,
            have: decimals,
        });
    }
    Ok(whole as u64 * scale(decimals) + thousandths(point) / scale_left(decimals))
}

// Reads a whole number and what stands behind it.
#[tactic(auto, unfolding(crate::specs::Amounts::amount_of))]
fn amount_of(decimals: u8, whole: &[u8], point: &[u8]) -> Result<u64, WordFault>
    ensures value { result ≡ amount_of decimals whole.now point.now }
    ensures small { IfOk result (λ units. units ≤ 2 ^ 40) }
{
    let whole = read_within(
        0,
        9_999_999,
        WordFault::NoAmount,
        WordFault::NoAmount,
        whole,
    )?;
    units_of(decimals, whole, point)
}

/// Reads an amount in units, where amounts have so many decimals, 0 to 3.
///
/// # Errors
///
/// `NoAmount` where the word is none; then `Decimals` where it has more than amounts have.
#[tactic(auto, unfolding(crate::specs::Amounts::amount_at))]
pub fn amount(decimals: u8, word: &[u8]) -> Result<u64, WordFault>
    ensures value { result ≡ amount_at decimals word.now }
    ensures small { IfOk result (λ units. units ≤ 2 ^ 40) }
{
    let (whole, point) = word.split_at(point_at(word));
    amount_of(decimals, whole, point)
}

/// Reads what a line or a change costs in units.
///
/// # Errors
///
/// Those of [`amount`], then `Units` where it is more than 10,000.
#[tactic(auto, unfolding(crate::specs::Amounts::cost_at))]
pub fn cost(decimals: u8, word: &[u8]) -> Result<u32, WordFault>
    ensures value { result ≡ cost_at decimals word.now }
    ensures small { IfOk result (λ units. units ≤ 10000) }
{
    let units = amount(decimals, word)?;
    if MOST_UNITS < units {
        return Err(WordFault::Units { units });
    }
    Ok(units as u32)
}

// Returns the least units that come out even in periods of so many minutes, but for the factors 3 and 5.
fn by_twos(minutes: u32) -> u64
    ensures value { result ≡ by_twos minutes }
    ensures some { 15 ≤ result }
    ensures few { result ≤ 60 }
{
    if minutes % 4 == 0 {
        15
    } else if minutes % 2 == 0 {
        30
    } else {
        60
    }
}

// Returns the least units that come out even in periods of so many minutes, but for the factor 5.
fn by_threes(minutes: u32) -> u64
    ensures value { result ≡ by_threes minutes }
    ensures some { 5 ≤ result }
    ensures few { result ≤ 60 }
{
    let step = by_twos(minutes);
    if minutes % 3 == 0 { step / 3 } else { step }
}

// Returns the least units an hour that come out even in periods of so many minutes.
fn even_step(minutes: u32) -> u64
    ensures value { result ≡ even_step minutes }
    ensures some { 1 ≤ result }
    ensures few { result ≤ 60 }
{
    let step = by_threes(minutes);
    if minutes % 5 == 0 { step / 5 } else { step }
}

// The fault of units an hour that do not come out even, with those next to them that do.
fn uneven(decimals: u8, minutes: u32, units: u64) -> WordFault
    requires { units ≤ 2 ^ 40 }
    ensures { result ≡ uneven decimals minutes units }
{
    let step = even_step(minutes);
    let below = units - units % step;
    WordFault::Uneven {
        minutes,
        decimals,
        below,
        above: below + step,
    }
}

// Takes units an hour that come out even in periods of so many minutes, and are not too many there.
#[tactic(auto, unfolding(crate::specs::Amounts::hour_of))]
fn hour_of(decimals: u8, minutes: u32, units: u64) -> Result<u32, WordFault>
    requires some { 1 ≤ minutes }
    requires few { minutes ≤ 720 }
    requires small { units ≤ 2 ^ 40 }
    ensures value { result ≡ hour_of decimals minutes units }
    ensures small { IfOk result (λ n. n ≤ 600059) }
{
    let sixtieths = units * minutes as u64;
    if sixtieths % 60 != 0 {
        return Err(uneven(decimals, minutes, units));
    }
    let period = sixtieths / 60;
    if MOST_UNITS < period {
        return Err(WordFault::PeriodUnits { units: period });
    }
    Ok(units as u32)
}

/// Reads what an hour costs in units, which come out even in the day's periods.
///
/// # Errors
///
/// Those of [`amount`], then `Uneven` where they do not come out even, and `PeriodUnits` where a period costs
/// more than 10,000.
#[tactic(auto, unfolding(crate::specs::Amounts::hour_at))]
pub fn hour(day: &Day, decimals: u8, word: &[u8]) -> Result<u32, WordFault>
    ensures value { result ≡ hour_at day.now.minutes decimals word.now }
    ensures small { IfOk result (λ n. n ≤ 600059) }
{
    let units = amount(decimals, word)?;
    hour_of(decimals, day.minutes(), units)
}
