//! Changes, stretches and starts.

ghost use Rattle.std.specs.Prelude.{◌≡◌, ◌≢◌, ◌≤◌, ◌/◌};
ghost use Rattle.plan_faults.specs.declared.fault.LineFault.TheVariants as line;
ghost use Rattle.plan_fields.specs.Steps.{Reads};
ghost use Rattle.plan_lines.specs.StartLines.{
  change_line,
  change_word,
  new_change,
  new_starts,
  new_stretch,
  some_start,
  starts_line,
  starts_of,
  starts_word,
  stretch_line,
};

use crate::day::{miscounted, second};
use crate::money::late;
use model_rosters::Memory;
use plan_faults::{Kind, LineFault, StartsFault};
use plan_fields::{Draft, copy, cost, count, decimals_of, length, lengths};
use plan_meaning::Lengths;
use plan_words::Day;
use std::alloc::Global;
use text_lines::Words;

/// The minutes from one midnight to the next.
const CLOCK_DAY: u32 = 1440;

/// Duties start every so many periods at most.
const MOST_PERIODS: u32 = 8;

// Reads what a change of activity costs, or `no`.
#[tactic(auto, unfolding(crate::specs::StartLines::change_word))]
fn change_word(alloc: Global, decimals: u8, word: &[u8]) -> Result<Option<u32>, LineFault>
    ensures { Reads (λ x. x) result (change_word decimals word.now) }
{
    if word == b"no".as_slice() {
        return Ok(None);
    }
    Ok(Some(cost(alloc, decimals, word)?))
}

// Reads the word of a change line.
#[tactic(auto, unfolding(crate::specs::StartLines::new_change))]
fn new_change(alloc: Global, decimals: u8, words: &mut Words<'_>) -> Result<Option<u32>, LineFault>
    ensures { Reads (λ x. x) result (new_change decimals words.old) }
{
    let found = count(words);
    let Some(word) = words.next() else {
        return Err(miscounted(found, 1, Some(1)));
    };
    if let Some(_) = words.next() {
        return Err(miscounted(found, 1, Some(1)));
    }
    change_word(alloc, decimals, word)
}

/// Reads a change line, behind its first word.
///
/// # Errors
///
/// That such a line stands above, then that duties do, then the first fault of the words.
#[tactic(auto, unfolding(crate::specs::StartLines::change_line))]
pub(crate) fn change_line(
    alloc: Global,
    draft: &mut Draft,
    words: &mut Words<'_>,
) -> Result<(), LineFault>
    ensures { Reads (λ _. (draft.new)) result (change_line draft.old words.old) }
{
    if draft.change.is_some() {
        return Err(second(Kind::Change));
    }
    if 0 < draft.duties.len() {
        return Err(late(Kind::Change));
    }
    draft.change = Some(new_change(alloc, decimals_of(draft), words)?);
    Ok(())
}

// Reads the words of a stretch line.
#[tactic(auto, unfolding(crate::specs::StartLines::new_stretch))]
fn new_stretch(alloc: Global, day: &Day, words: &mut Words<'_>) -> Result<Lengths, LineFault>
    ensures { Reads (λ x. x) result (new_stretch day.now words.old) }
{
    let found = count(words);
    let Some(least) = words.next() else {
        return Err(miscounted(found, 2, Some(2)));
    };
    let Some(greatest) = words.next() else {
        return Err(miscounted(found, 2, Some(2)));
    };
    if let Some(_) = words.next() {
        return Err(miscounted(found, 2, Some(2)));
    }
    lengths(alloc, day, least, greatest)
}

/// Reads a stretch line, behind its first word.
///
/// # Errors
///
/// That such a line stands above, then that duties do, then the first fault of the words.
#[tactic(auto, unfolding(crate::specs::StartLines::stretch_line))]
pub(crate) fn stretch_line(
    alloc: Global,
    day: &Day,
    draft: &mut Draft,
    words: &mut Words<'_>,
) -> Result<(), LineFault>
    ensures { Reads (λ _. (draft.new)) result (stretch_line day.now draft.old words.old) }
{
    if draft.stretch.is_some() {
        return Err(second(Kind::Stretch));
    }
    if 0 < draft.duties.len() {
        return Err(late(Kind::Stretch));
    }
    draft.stretch = Some(new_stretch(alloc, day, words)?);
    Ok(())
}

// Returns the fault of a length at whose multiples duties cannot start.
fn refused_starts(alloc: Global, word: &[u8], fault: StartsFault) -> LineFault
    ensures { result ≢ line.Memory → result ≡ line.Starts word.now fault }
{
    match copy(alloc, word) {
        Ok(word) => LineFault::Starts { word, fault },
        Err(Memory) => LineFault::Memory,
    }
}

// Whether one of the first periods, which together last so long, begins at a multiple of this length by the
// clock.
fn some_start(day: &Day, starts: u32) -> bool
    requires some { 1 ≤ starts }
    requires small { starts ≤ 136679 }
    ensures { result ≡ some_start day.now starts }
{
    for passed in 0..starts / day.minutes() {
        let moment = day.begin() as u64 + passed as u64 * day.minutes() as u64;
        if moment % starts as u64 == 0 {
            return true;
        }
    }
    false
}

// Takes a length at whose multiples duties start.
#[tactic(auto, unfolding(crate::specs::StartLines::starts_of))]
fn starts_of(alloc: Global, day: &Day, word: &[u8], starts: u32) -> Result<u32, LineFault>
    requires some { 1 ≤ starts }
    requires small { starts ≤ 136679 }
    ensures { Reads (λ n. n) result (starts_of day.now word.now starts) }
{
    if CLOCK_DAY % starts != 0 {
        return Err(refused_starts(alloc, word, StartsFault::Uneven));
    }
    let periods = starts / day.minutes();
    if MOST_PERIODS < periods {
        return Err(refused_starts(alloc, word, StartsFault::Many { periods }));
    }
    if !some_start(day, starts) {
        return Err(refused_starts(alloc, word, StartsFault::Never));
    }
    Ok(starts)
}

// Reads a length at whose multiples duties start.
#[tactic(auto, unfolding(crate::specs::StartLines::starts_word))]
fn starts_word(alloc: Global, day: &Day, word: &[u8]) -> Result<u32, LineFault>
    ensures { Reads (λ n. n) result (starts_word day.now word.now) }
{
    let starts = length(alloc, day, word)?;
    starts_of(alloc, day, word, starts)
}

// Reads the word of a starts line.
#[tactic(auto, unfolding(crate::specs::StartLines::new_starts))]
fn new_starts(alloc: Global, day: &Day, words: &mut Words<'_>) -> Result<u32, LineFault>
    ensures { Reads (λ n. n) result (new_starts day.now words.old) }
{
    let found = count(words);
    let Some(word) = words.next() else {
        return Err(miscounted(found, 1, Some(1)));
    };
    if let Some(_) = words.next() {
        return Err(miscounted(found, 1, Some(1)));
    }
    starts_word(alloc, day, word)
}

/// Reads a starts line, behind its first word.
///
/// # Errors
///
/// That such a line stands above, then that duties do, then the first fault of the words.
#[tactic(auto, unfolding(crate::specs::StartLines::starts_line))]
pub(crate) fn starts_line(
    alloc: Global,
    day: &Day,
    draft: &mut Draft,
    words: &mut Words<'_>,
) -> Result<(), LineFault>
    ensures { Reads (λ _. (draft.new)) result (starts_line day.now draft.old words.old) }
{
    if draft.starts.is_some() {
        return Err(second(Kind::Starts));
    }
    if 0 < draft.duties.len() {
        return Err(late(Kind::Starts));
    }
    draft.starts = Some(new_starts(alloc, day, words)?);
    Ok(())
}
