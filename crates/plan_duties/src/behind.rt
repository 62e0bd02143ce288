//! What stands behind the parts.

ghost use Rattle.std.specs.Prelude.{◌≡◌, ◌≢◌};
ghost use Rattle.plan_duties.specs.BehindWords.{
  begin_word,
  behind_at,
  end_word,
  is_behind,
  plus_word,
  stretch_word,
};
ghost use Rattle.plan_faults.specs.declared.fault.LineFault.TheVariants.{Memory as out_of_memory, Part};
ghost use Rattle.plan_faults.specs.declared.fault.PartFault.TheVariants.{Behind, Twice};
ghost use Rattle.plan_fields.specs.Steps.{Reads};

use crate::tail::{Tail, parts_done};
use model_rosters::Memory;
use plan_faults::{LineFault, PartFault};
use plan_fields::{begins, copy, ends, hour, lengths};
use plan_words::Day;
use std::alloc::Global;
use text_lines::Words;

/// Whether a word begins something that stands behind the parts.
pub(crate) fn is_behind(word: &[u8]) -> bool
    ensures { result ≡ is_behind word.now }
{
    word == b"begin".as_slice()
        || word == b"end".as_slice()
        || word == b"stretch".as_slice()
        || word == b"plus".as_slice()
}

/// Returns the fault of a word that cannot stand behind the parts.
pub(crate) fn cannot_stand(alloc: Global, word: &[u8]) -> LineFault
    ensures { result ≢ out_of_memory → result ≡ Part (Behind word.now) }
{
    match copy(alloc, word) {
        Ok(word) => LineFault::Part {
            fault: PartFault::Behind { word },
        },
        Err(Memory) => LineFault::Memory,
    }
}

// Returns the fault of a word that stands behind the parts already.
fn twice(alloc: Global, word: &[u8]) -> LineFault
    ensures { result ≢ out_of_memory → result ≡ Part (Twice word.now) }
{
    match copy(alloc, word) {
        Ok(word) => LineFault::Part {
            fault: PartFault::Twice { word },
        },
        Err(Memory) => LineFault::Memory,
    }
}

// Reads between which times the duty begins, and tells how many words they are.
#[tactic(auto, unfolding(crate::specs::BehindWords::begin_word))]
fn begin_word(
    alloc: Global,
    day: &Day,
    tail: &mut Tail,
    word: &[u8],
    words: &Words<'_>,
) -> Result<usize, LineFault>
    ensures { Reads (λ n. (tail.new, n)) result (begin_word day.now tail.old word.now words.now) }
{
    let mut ahead = words.again();
    let Some(first) = ahead.next() else {
        return Err(cannot_stand(alloc, word));
    };
    let Some(second) = ahead.next() else {
        return Err(cannot_stand(alloc, word));
    };
    if tail.begins.is_some() {
        return Err(twice(alloc, word));
    }
    tail.begins = Some(begins(alloc, day, first, second)?);
    Ok(2)
}

// Reads between which times the duty ends, and tells how many words they are.
#[tactic(auto, unfolding(crate::specs::BehindWords::end_word))]
fn end_word(
    alloc: Global,
    day: &Day,
    tail: &mut Tail,
    word: &[u8],
    words: &Words<'_>,
) -> Result<usize, LineFault>
    ensures { Reads (λ n. (tail.new, n)) result (end_word day.now tail.old word.now words.now) }
{
    let mut ahead = words.again();
    let Some(first) = ahead.next() else {
        return Err(cannot_stand(alloc, word));
    };
    let Some(second) = ahead.next() else {
        return Err(cannot_stand(alloc, word));
    };
    if tail.ends.is_some() {
        return Err(twice(alloc, word));
    }
    tail.ends = Some(ends(alloc, day, first, second)?);
    Ok(2)
}

// Reads how long the duty's stretches last, and tells how many words that are.
#[tactic(auto, unfolding(crate::specs::BehindWords::stretch_word))]
fn stretch_word(
    alloc: Global,
    day: &Day,
    tail: &mut Tail,
    word: &[u8],
    words: &Words<'_>,
) -> Result<usize, LineFault>
    ensures { Reads (λ n. (tail.new, n)) result (stretch_word day.now tail.old word.now words.now) }
{
    let mut ahead = words.again();
    let Some(first) = ahead.next() else {
        return Err(cannot_stand(alloc, word));
    };
    let Some(second) = ahead.next() else {
        return Err(cannot_stand(alloc, word));
    };
    if tail.stretch.is_some() {
        return Err(twice(alloc, word));
    }
    tail.stretch = Some(lengths(alloc, day, first, second)?);
    Ok(2)
}

// Reads how much more an hour costs by the line, and tells how many words that are.
#[tactic(auto, unfolding(crate::specs::BehindWords::plus_word))]
fn plus_word(
    alloc: Global,
    day: &Day,
    decimals: u8,
    tail: &mut Tail,
    word: &[u8],
    words: &Words<'_>,
) -> Result<usize, LineFault>
    ensures { Reads (λ n. (tail.new, n)) result (plus_word day.now decimals tail.old word.now words.now) }
{
    let mut ahead = words.again();
    let Some(amount) = ahead.next() else {
        return Err(cannot_stand(alloc, word));
    };
    if tail.plus.is_some() {
        return Err(twice(alloc, word));
    }
    tail.plus = Some(hour(alloc, day, decimals, amount)?);
    Ok(1)
}

/// Reads what a word behind the parts begins, and tells how many words behind it are its.
///
/// # Errors
///
/// The first fault of the words; `Memory` where memory runs out.
#[tactic(auto, unfolding(crate::specs::BehindWords::behind_at))]
pub(crate) fn behind_at(
    alloc: Global,
    day: &Day,
    decimals: u8,
    tail: &mut Tail,
    word: &[u8],
    words: &Words<'_>,
) -> Result<usize, LineFault>
    ensures { Reads (λ n. (tail.new, n)) result (behind_at day.now decimals tail.old word.now words.now) }
{
    parts_done(tail)?;
    if word == b"begin".as_slice() {
        return begin_word(alloc, day, tail, word, words);
    }
    if word == b"end".as_slice() {
        return end_word(alloc, day, tail, word, words);
    }
    if word == b"stretch".as_slice() {
        return stretch_word(alloc, day, tail, word, words);
    }
    plus_word(alloc, day, decimals, tail, word, words)
}
