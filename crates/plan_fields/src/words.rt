//! Single words.

ghost use Rattle.std.specs.Prelude.{◌≡◌, ◌≤◌, IfOk};
ghost use Rattle.plan_words.specs.Amounts as amounts;
ghost use Rattle.plan_words.specs.Lengths as lengths;
ghost use Rattle.plan_words.specs.NameWords as names;
ghost use Rattle.plan_words.specs.Numbers as numbers;
ghost use Rattle.plan_words.specs.TimeWords as times;
ghost use Rattle.plan_fields.specs.Steps.{Reads, quoted};
ghost use Rattle.plan_fields.specs.Words.{plan_name_at};

use crate::quote::{copy, refused};
use model_rosters::List;
use plan_faults::LineFault;
use plan_meaning::Time;
use plan_words::{Day, WordFault, is_plan_name};
use std::alloc::Global;

/// Reads a code.
///
/// # Errors
///
/// The word's fault; `Memory` where memory runs out.
pub fn code(alloc: Global, word: &[u8]) -> Result<u8, LineFault>
    ensures { Reads (λ n. n) result (quoted word.now (names.code_at word.now)) }
{
    match plan_words::code(word) {
        Ok(code) => Ok(code),
        Err(fault) => Err(refused(alloc, word, fault)),
    }
}

/// Reads a whole number from `low` to `high`.
///
/// # Errors
///
/// The word's fault; `Memory` where memory runs out.
pub fn number(alloc: Global, low: u32, high: u32, word: &[u8]) -> Result<u32, LineFault>
    ensures value { Reads (λ n. n) result (quoted word.now (numbers.number_at low high word.now)) }
    ensures least { IfOk result (λ n. low ≤ n) }
    ensures most { IfOk result (λ n. n ≤ high) }
{
    match plan_words::number(low, high, word) {
        Ok(number) => Ok(number),
        Err(fault) => Err(refused(alloc, word, fault)),
    }
}

/// Reads a length of whole periods, in minutes.
///
/// # Errors
///
/// The word's fault; `Memory` where memory runs out.
pub fn length(alloc: Global, day: &Day, word: &[u8]) -> Result<u32, LineFault>
    ensures value { Reads (λ n. n) result (quoted word.now (lengths.length_at day.now word.now)) }
    ensures some { IfOk result (λ n. 1 ≤ n) }
    ensures small { IfOk result (λ n. n ≤ 136679) }
{
    match plan_words::length(day, word) {
        Ok(length) => Ok(length),
        Err(fault) => Err(refused(alloc, word, fault)),
    }
}

/// Reads a time, behind which `+1` may stand.
///
/// # Errors
///
/// The word's fault; `Memory` where memory runs out.
pub fn time(alloc: Global, word: &[u8]) -> Result<Time, LineFault>
    ensures value { Reads (λ t. t) result (quoted word.now (times.time_or (times.time_at word.now))) }
    ensures small { IfOk result (λ t. t.minute ≤ 1440) }
{
    match plan_words::time(word) {
        Ok(time) => Ok(time),
        Err(fault) => Err(refused(alloc, word, fault)),
    }
}

/// Reads a time of the clock, in minutes behind midnight.
///
/// # Errors
///
/// The word's fault; `Memory` where memory runs out.
pub fn clock_time(alloc: Global, word: &[u8]) -> Result<u32, LineFault>
    ensures value { Reads (λ n. n) result (quoted word.now (times.clock_time word.now)) }
    ensures small { IfOk result (λ n. n ≤ 1440) }
{
    match plan_words::clock_time(word) {
        Ok(minute) => Ok(minute),
        Err(fault) => Err(refused(alloc, word, fault)),
    }
}

/// Reads a time at which a period of the day begins.
///
/// # Errors
///
/// The word's fault; `Memory` where memory runs out.
pub fn begin(alloc: Global, day: &Day, word: &[u8]) -> Result<Time, LineFault>
    ensures value { Reads (λ t. t) result (quoted word.now (times.begin_at day.now word.now)) }
    ensures small { IfOk result (λ t. t.minute ≤ 1440) }
{
    match plan_words::begin(day, word) {
        Ok(time) => Ok(time),
        Err(fault) => Err(refused(alloc, word, fault)),
    }
}

/// Reads a time at which a period of the day ends.
///
/// # Errors
///
/// The word's fault; `Memory` where memory runs out.
pub fn end(alloc: Global, day: &Day, word: &[u8]) -> Result<Time, LineFault>
    ensures value { Reads (λ t. t) result (quoted word.now (times.end_at day.now word.now)) }
    ensures small { IfOk result (λ t. t.minute ≤ 1440) }
{
    match plan_words::end(day, word) {
        Ok(time) => Ok(time),
        Err(fault) => Err(refused(alloc, word, fault)),
    }
}

/// Reads what a line or a change costs in units.
///
/// # Errors
///
/// The word's fault; `Memory` where memory runs out.
pub fn cost(alloc: Global, decimals: u8, word: &[u8]) -> Result<u32, LineFault>
    ensures { Reads (λ n. n) result (quoted word.now (amounts.cost_at decimals word.now)) }
{
    match plan_words::cost(decimals, word) {
        Ok(units) => Ok(units),
        Err(fault) => Err(refused(alloc, word, fault)),
    }
}

/// Reads what an hour costs in units, which come out even in the day's periods.
///
/// # Errors
///
/// The word's fault; `Memory` where memory runs out.
pub fn hour(alloc: Global, day: &Day, decimals: u8, word: &[u8]) -> Result<u32, LineFault>
    ensures value { Reads (λ n. n) result
        (quoted word.now (amounts.hour_at day.now.minutes decimals word.now)) }
    ensures small { IfOk result (λ n. n ≤ 600059) }
{
    match plan_words::hour(day, decimals, word) {
        Ok(units) => Ok(units),
        Err(fault) => Err(refused(alloc, word, fault)),
    }
}

/// Reads the name of a duty.
///
/// # Errors
///
/// `NoName` with the word, where it is none; `Memory` where memory runs out.
#[tactic(auto, unfolding(crate::specs::Words::plan_name_at))]
pub fn plan_name(alloc: Global, word: &[u8]) -> Result<List<u8>, LineFault>
    ensures { Reads (λ n. n) result (plan_name_at word.now) }
{
    if !is_plan_name(word) {
        return Err(refused(alloc, word, WordFault::NoName));
    }
    let name = copy(alloc, word)?;
    Ok(name)
}
