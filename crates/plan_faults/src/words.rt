//! What is said of words.

ghost use Rattle.std.specs.Prelude.{◌≡◌, ◌++◌, OnOk};
ghost use Rattle.plan_faults.specs.Phrases.{said};
ghost use Rattle.plan_faults.specs.WordFaults.{
  amounts_text,
  whole_text,
  word_phrase,
  decimals_text,
  even_text,
  hour_text,
  no_begin_text,
  outside_day_text,
  outside_text,
  part_text,
  periods_text,
  remedy,
  units_text,
  word_fault,
};

use crate::amounts::put_amount;
use crate::clock::{put_begin, put_clock, put_end};
use crate::counts::{put_counted, put_number};
use crate::phrases::say;
use model_rosters::{List, Memory};
use plan_words::WordFault;
use text_lines::put;

/// Fixed words of what is said.
#[derive(Clone, Copy, Drop)]
enum WordPhrase {
    MostDecimals,
    SayMoney,
    AmountsHave,
    UnevenHour,
    MostUnits,
    MostPeriod,
    PartPeriods,
    NoBegin,
    OutsideDay,
    NoCode,
    NoName,
    NoNumber,
    NoAmount,
    NoLength,
    NoTime,
    HourIs,
    HereOneTo,
}

// Returns fixed words of what is said.
#[tactic(auto, unfolding(crate::specs::WordFaults::word_phrase))]
fn word_phrase(phrase: WordPhrase) -> &'static str
    ensures { result.now ≡ word_phrase phrase }
{
    match phrase {
        WordPhrase::MostDecimals => "; at most 3 can stand",
        WordPhrase::SayMoney => "; say: money NAME ",
        WordPhrase::AmountsHave => ", amounts have ",
        WordPhrase::UnevenHour => " an hour does not come out even in periods of ",
        WordPhrase::MostUnits => "; at most 10000 can stand",
        WordPhrase::MostPeriod => " a period; at most 10000 can stand",
        WordPhrase::PartPeriods => " is no whole number of periods of ",
        WordPhrase::NoBegin => " is no begin of a period: they last ",
        WordPhrase::OutsideDay => " is outside the day, ",
        WordPhrase::NoCode => " is no code: a code is one letter or digit",
        WordPhrase::NoName => " is no name: a letter, and up to 23 letters and digits",
        WordPhrase::NoNumber => " is no whole number",
        WordPhrase::NoAmount => " is no amount, as 15 or 15.50",
        WordPhrase::NoLength => " is no length of time, as 2:00",
        WordPhrase::NoTime => " is no time of day, as 9:00",
        WordPhrase::HourIs => " an hour is ",
        WordPhrase::HereOneTo => "; here 1 to ",
    }
}

// Appends what is said of a number outside a range.
fn put_outside(out: &mut List<u8>, low: u32, high: u32) -> Result<(), Memory>
    ensures { OnOk result (out.new ≡ out.old ++ outside_text low high) }
{
    say(out, b" is not ")?;
    put_number(out, low as u64)?;
    say(out, b" to ")?;
    put_number(out, high as u64)
}

// Appends what helps against so many decimals.
#[tactic(auto, unfolding(crate::specs::WordFaults::remedy))]
fn put_remedy(out: &mut List<u8>, found: u64) -> Result<(), Memory>
    ensures { OnOk result (out.new ≡ out.old ++ remedy found) }
{
    if 3 < found {
        return put(out, word_phrase(WordPhrase::MostDecimals).as_bytes());
    }
    put(out, word_phrase(WordPhrase::SayMoney).as_bytes())?;
    put_number(out, found)
}

// Appends what is said of an amount with more decimals than amounts have.
fn put_decimals(out: &mut List<u8>, found: u64, have: u8) -> Result<(), Memory>
    ensures { OnOk result (out.new ≡ out.old ++ decimals_text found have) }
{
    say(out, b" has ")?;
    put_counted(out, found, b"decimal")?;
    put(out, word_phrase(WordPhrase::AmountsHave).as_bytes())?;
    put_number(out, have as u64)?;
    put_remedy(out, found)
}

// Appends which amounts come out even.
fn put_even_amounts(out: &mut List<u8>, decimals: u8, below: u64, above: u64) -> Result<(), Memory>
    ensures { OnOk result (out.new ≡ out.old ++ amounts_text decimals below above) }
{
    say(out, b"; ")?;
    put_amount(out, decimals, below)?;
    say(out, b" and ")?;
    put_amount(out, decimals, above)?;
    say(out, b" do")
}

// Appends what is said of an hour's amount that does not come out even.
fn put_even(
    out: &mut List<u8>,
    minutes: u32,
    decimals: u8,
    below: u64,
    above: u64,
) -> Result<(), Memory>
    ensures { OnOk result (out.new ≡ out.old ++ even_text minutes decimals below above) }
{
    put(out, word_phrase(WordPhrase::UnevenHour).as_bytes())?;
    put_counted(out, minutes as u64, b"minute")?;
    put_even_amounts(out, decimals, below, above)
}

// Appends what is said of an amount of too many units.
fn put_units(out: &mut List<u8>, units: u64) -> Result<(), Memory>
    ensures { OnOk result (out.new ≡ out.old ++ units_text units) }
{
    say(out, b" is ")?;
    put_counted(out, units, b"unit")?;
    put(out, word_phrase(WordPhrase::MostUnits).as_bytes())
}

// Appends what is said of an hour's amount of too many units a period.
fn put_hour(out: &mut List<u8>, units: u64) -> Result<(), Memory>
    ensures { OnOk result (out.new ≡ out.old ++ hour_text units) }
{
    put(out, word_phrase(WordPhrase::HourIs).as_bytes())?;
    put_counted(out, units, b"unit")?;
    put(out, word_phrase(WordPhrase::MostPeriod).as_bytes())
}

// Appends which lengths are whole periods.
fn put_whole_lengths(out: &mut List<u8>, below: u32, above: u32) -> Result<(), Memory>
    ensures { OnOk result (out.new ≡ out.old ++ whole_text below above) }
{
    say(out, b"; ")?;
    put_clock(out, below as u64)?;
    say(out, b" and ")?;
    put_clock(out, above as u64)?;
    say(out, b" are")
}

// Appends what is said of a length of no whole periods.
fn put_part(out: &mut List<u8>, minutes: u32, below: u32, above: u32) -> Result<(), Memory>
    ensures { OnOk result (out.new ≡ out.old ++ part_text minutes below above) }
{
    put(out, word_phrase(WordPhrase::PartPeriods).as_bytes())?;
    put_counted(out, minutes as u64, b"minute")?;
    put_whole_lengths(out, below, above)
}

// Appends what is said of a length of too few or too many periods.
fn put_periods(out: &mut List<u8>, periods: u32, most: u32) -> Result<(), Memory>
    ensures { OnOk result (out.new ≡ out.old ++ periods_text periods most) }
{
    say(out, b" is ")?;
    put_counted(out, periods as u64, b"period")?;
    put(out, word_phrase(WordPhrase::HereOneTo).as_bytes())?;
    put_number(out, most as u64)?;
    say(out, b" can stand")
}

// Appends what is said of a time at which no period begins.
fn put_no_begin(out: &mut List<u8>, minutes: u32, begin: u32) -> Result<(), Memory>
    ensures { OnOk result (out.new ≡ out.old ++ no_begin_text minutes begin) }
{
    put(out, word_phrase(WordPhrase::NoBegin).as_bytes())?;
    put_counted(out, minutes as u64, b"minute")?;
    say(out, b" from ")?;
    put_begin(out, begin as u64)?;
    say(out, b" on")
}

// Appends what is said of a time outside the day.
fn put_outside_day(out: &mut List<u8>, begin: u32, end: u32) -> Result<(), Memory>
    ensures { OnOk result (out.new ≡ out.old ++ outside_day_text begin end) }
{
    put(out, word_phrase(WordPhrase::OutsideDay).as_bytes())?;
    put_begin(out, begin as u64)?;
    say(out, b" to ")?;
    put_end(out, end as u64)
}

/// Appends what is said of a word behind the word itself.
///
/// # Errors
///
/// `Memory` where memory runs out; a part may stand in `out` then.
#[tactic(auto, unfolding(crate::specs::WordFaults::word_fault))]
pub fn put_word_fault(out: &mut List<u8>, fault: WordFault) -> Result<(), Memory>
    ensures { OnOk result (out.new ≡ out.old ++ word_fault fault) }
{
    match fault {
        WordFault::NoCode => put(out, word_phrase(WordPhrase::NoCode).as_bytes()),
        WordFault::NoName => put(out, word_phrase(WordPhrase::NoName).as_bytes()),
        WordFault::NoNumber => put(out, word_phrase(WordPhrase::NoNumber).as_bytes()),
        WordFault::Outside { low, high } => put_outside(out, low, high),
        WordFault::NoAmount => put(out, word_phrase(WordPhrase::NoAmount).as_bytes()),
        WordFault::Decimals { found, have } => put_decimals(out, found, have),
        WordFault::Units { units } => put_units(out, units),
        WordFault::Uneven {
            minutes,
            decimals,
            below,
            above,
        } => put_even(out, minutes, decimals, below, above),
        WordFault::PeriodUnits { units } => put_hour(out, units),
        WordFault::NoLength => put(out, word_phrase(WordPhrase::NoLength).as_bytes()),
        WordFault::PartPeriod {
            minutes,
            below,
            above,
        } => put_part(out, minutes, below, above),
        WordFault::Periods { periods, most } => put_periods(out, periods, most),
        WordFault::NoTime => put(out, word_phrase(WordPhrase::NoTime).as_bytes()),
        WordFault::NoBegin { minutes, begin } => put_no_begin(out, minutes, begin),
        WordFault::OutsideDay { begin, end } => put_outside_day(out, begin, end),
    }
}
