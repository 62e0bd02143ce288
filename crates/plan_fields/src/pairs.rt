//! Pairs of words.

ghost use Rattle.std.specs.Prelude.{◌≡◌};
ghost use Rattle.plan_fields.specs.Pairs.{begins_at, ends_at, lengths_at, numbers_at, span_at};
ghost use Rattle.plan_fields.specs.Steps.{Reads};

use crate::quote::refused_pair;
use crate::words::{begin, end, length, number};
use plan_faults::{LineFault, PairFault};
use plan_meaning::{Lengths, Times};
use plan_words::Day;
use std::alloc::Global;

/// Reads two lengths of whole periods, of which the first is not longer.
///
/// # Errors
///
/// The first fault of the words, or `Longer` of both; `Memory` where memory runs out.
#[tactic(auto, unfolding(crate::specs::Pairs::lengths_at))]
pub fn lengths(alloc: Global, day: &Day, first: &[u8], second: &[u8]) -> Result<Lengths, LineFault>
    ensures { Reads (λ x. x) result (lengths_at day.now first.now second.now) }
{
    let least = length(alloc, day, first)?;
    let greatest = length(alloc, day, second)?;
    if greatest < least {
        return Err(refused_pair(alloc, first, second, PairFault::Longer));
    }
    Ok(Lengths { least, greatest })
}

/// Reads two begins, of which the first is not later.
///
/// # Errors
///
/// The first fault of the words, or `Later` of both; `Memory` where memory runs out.
#[tactic(auto, unfolding(crate::specs::Pairs::begins_at))]
pub fn begins(alloc: Global, day: &Day, first: &[u8], second: &[u8]) -> Result<Times, LineFault>
    ensures { Reads (λ x. x) result (begins_at day.now first.now second.now) }
{
    let from = begin(alloc, day, first)?;
    let to = begin(alloc, day, second)?;
    if day.begin_behind(&to) < day.begin_behind(&from) {
        return Err(refused_pair(alloc, first, second, PairFault::Later));
    }
    Ok(Times { from, to })
}

/// Reads two ends, of which the first is not later.
///
/// # Errors
///
/// The first fault of the words, or `Later` of both; `Memory` where memory runs out.
#[tactic(auto, unfolding(crate::specs::Pairs::ends_at))]
pub fn ends(alloc: Global, day: &Day, first: &[u8], second: &[u8]) -> Result<Times, LineFault>
    ensures { Reads (λ x. x) result (ends_at day.now first.now second.now) }
{
    let from = end(alloc, day, first)?;
    let to = end(alloc, day, second)?;
    if day.end_behind(&to) < day.end_behind(&from) {
        return Err(refused_pair(alloc, first, second, PairFault::Later));
    }
    Ok(Times { from, to })
}

/// Reads a begin and an end behind it.
///
/// # Errors
///
/// The first fault of the words, or `NotBefore` of both; `Memory` where memory runs out.
#[tactic(auto, unfolding(crate::specs::Pairs::span_at))]
pub fn span(alloc: Global, day: &Day, first: &[u8], second: &[u8]) -> Result<Times, LineFault>
    ensures { Reads (λ x. x) result (span_at day.now first.now second.now) }
{
    let from = begin(alloc, day, first)?;
    let to = end(alloc, day, second)?;
    if day.end_behind(&to) <= day.begin_behind(&from) {
        return Err(refused_pair(alloc, first, second, PairFault::NotBefore));
    }
    Ok(Times { from, to })
}

/// Reads the least and the greatest number of employees, 0 to 64 and 1 to 64, of which the first is not
/// greater.
///
/// # Errors
///
/// The first fault of the words, or `More` of both; `Memory` where memory runs out.
#[tactic(auto, unfolding(crate::specs::Pairs::numbers_at))]
pub fn numbers(alloc: Global, first: &[u8], second: &[u8]) -> Result<(u8, u8), LineFault>
    ensures { Reads (λ x. x) result (numbers_at first.now second.now) }
{
    let least = number(alloc, 0, 64, first)?;
    let greatest = number(alloc, 1, 64, second)?;
    if greatest < least {
        return Err(refused_pair(alloc, first, second, PairFault::More));
    }
    Ok((least as u8, greatest as u8))
}
