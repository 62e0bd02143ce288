//! Lengths of time as numbers of periods.

ghost use Rattle.std.specs.Prelude.{◌≡◌, ◌≤◌, IfOk, IfSome};
ghost use Rattle.plan_words.specs.Digits.{clock_of};
ghost use Rattle.plan_words.specs.Lengths.{length_at, most_periods, whole_length};

use crate::clock::CLOCK_DAY;
use crate::day::Day;
use crate::digits::minutes_at;
use crate::fault::WordFault;

// Reads `H:MM` or `HH:MM` as minutes.
#[tactic(auto, unfolding(crate::specs::Digits::clock_of))]
fn clock(word: &[u8]) -> Option<u32>
    ensures value { result ≡ clock_of word.now }
    ensures small { IfSome result (λ n. n ≤ 136679) }
{
    match word {
        [h, colon, a, b] => minutes_at(48, *h, *colon, *a, *b),
        [g, h, colon, a, b] => minutes_at(*g, *h, *colon, *a, *b),
        _ => None,
    }
}

// Returns how many periods a length has at most: those of the day, and of 24 hours.
fn most_periods(day: &Day) -> u32
    ensures value { result ≡ most_periods day.now }
    ensures small { result ≤ 1440 }
{
    day.length().min(CLOCK_DAY) / day.minutes()
}

// Takes minutes that are whole periods of so many minutes, 1 to `most` of them.
#[tactic(auto, unfolding(crate::specs::Lengths::whole_length))]
fn whole_length(minutes: u32, most: u32, found: u32) -> Result<u32, WordFault>
    requires some { 1 ≤ minutes }
    requires few { minutes ≤ 720 }
    requires small { found ≤ 136679 }
    ensures value { result ≡ whole_length minutes most found }
    ensures some { IfOk result (λ n. 1 ≤ n) }
    ensures small { IfOk result (λ n. n ≤ 136679) }
{
    let over = found % minutes;
    if over != 0 {
        let below = found - over;
        return Err(WordFault::PartPeriod {
            minutes,
            below,
            above: below + minutes,
        });
    }
    let periods = found / minutes;
    if periods < 1 || most < periods {
        return Err(WordFault::Periods { periods, most });
    }
    Ok(found)
}

/// Reads a length of whole periods, from one to the whole day and at most 24 hours, in minutes.
///
/// # Errors
///
/// `NoLength` where the word is none; then `PartPeriod`, then `Periods`.
#[tactic(auto, unfolding(crate::specs::Lengths::length_at))]
pub fn length(day: &Day, word: &[u8]) -> Result<u32, WordFault>
    ensures value { result ≡ length_at day.now word.now }
    ensures some { IfOk result (λ n. 1 ≤ n) }
    ensures small { IfOk result (λ n. n ≤ 136679) }
{
    match clock(word) {
        Some(found) => whole_length(day.minutes(), most_periods(day), found),
        None => Err(WordFault::NoLength),
    }
}
