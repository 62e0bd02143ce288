//! The title and the day.

ghost use Rattle.std.specs.Prelude.{◌≡◌, ◌≢◌, IfOk};
ghost use Rattle.plan_faults.specs.declared.fault.LineFault.TheVariants as line;
ghost use Rattle.plan_faults.specs.declared.fault.StandFault.TheVariants as stand;
ghost use Rattle.plan_fields.specs.Steps.{Reads};
ghost use Rattle.plan_lines.specs.DayLines.{day_line, day_words, title_line};

use model_rosters::{List, Memory};
use plan_faults::{Kind, LineFault, StandFault};
use plan_fields::{clock_time, copy, count, name_of, number, time};
use plan_meaning::PlanDay;
use plan_words::{Day, DayFault};
use std::alloc::Global;
use text_lines::Words;

/// A title and the name of a code or of employees has at most so many bytes.
const MOST_BYTES: usize = 60;

/// The fault of a line of which one stands above.
pub(crate) fn second(kind: Kind) -> LineFault
    ensures { result ≡ line.Stand (stand.Second kind) }
{
    LineFault::Stand {
        fault: StandFault::Second { kind },
    }
}

/// The fault of so many words, of which `least` to `most` are due.
pub(crate) fn miscounted(found: u64, least: u64, most: Option<u64>) -> LineFault
    ensures { result ≡ line.Count found least most }
{
    LineFault::Count { found, least, most }
}

/// Reads a title line, behind its first word.
///
/// # Errors
///
/// That a title stands above; then `Count` where no word stands there, and `Bytes` where they have more than
/// 60.
#[tactic(auto, unfolding(crate::specs::DayLines::title_line))]
pub(crate) fn title_line(
    alloc: Global,
    title: &mut List<u8>,
    words: &mut Words<'_>,
) -> Result<(), LineFault>
    ensures { Reads (λ _. (title.new)) result (title_line title.old words.old) }
{
    if 0 < title.len() {
        return Err(second(Kind::Title));
    }
    if count(words) == 0 {
        return Err(miscounted(0, 1, None));
    }
    *title = name_of(alloc, MOST_BYTES, words)?;
    Ok(())
}

// Returns the two times of a day line as lists.
fn copies(alloc: Global, begin: &[u8], end: &[u8]) -> Result<(List<u8>, List<u8>), Memory>
    ensures { IfOk result (λ x. x ≡ (begin.now, end.now)) }
{
    let begin = copy(alloc, begin)?;
    let end = copy(alloc, end)?;
    Ok((begin, end))
}

// Returns the fault of times that make no day of whole periods.
fn refused_day(alloc: Global, begin: &[u8], end: &[u8], fault: DayFault) -> LineFault
    ensures { result ≢ line.Memory → result ≡ line.Day begin.now end.now fault }
{
    match copies(alloc, begin, end) {
        Ok((begin, end)) => LineFault::Day { begin, end, fault },
        Err(Memory) => LineFault::Memory,
    }
}

// Reads the three words of a day line.
#[tactic(auto, unfolding(crate::specs::DayLines::day_words))]
fn day_words(
    alloc: Global,
    begin_word: &[u8],
    end_word: &[u8],
    minutes: &[u8],
) -> Result<Day, LineFault>
    ensures { Reads (λ d. d) result (day_words begin_word.now end_word.now minutes.now) }
{
    let begin = clock_time(alloc, begin_word)?;
    let end = time(alloc, end_word)?;
    let minutes = number(alloc, 1, 720, minutes)?;
    let plan = PlanDay {
        begin,
        end,
        minutes,
    };
    match Day::of(plan) {
        Ok(day) => Ok(day),
        Err(fault) => Err(refused_day(alloc, begin_word, end_word, fault)),
    }
}

/// Reads a day line, behind its first word.
///
/// # Errors
///
/// That a day line stands above; then `Count` where other than three words stand there, the first fault of
/// the words, and `Day` where they make no day of whole periods.
#[tactic(auto, unfolding(crate::specs::DayLines::day_line))]
pub(crate) fn day_line(
    alloc: Global,
    day: &mut Option<Day>,
    words: &mut Words<'_>,
) -> Result<(), LineFault>
    ensures { Reads (λ _. (day.new)) result (day_line day.old words.old) }
{
    if day.is_some() {
        return Err(second(Kind::Day));
    }
    let found = count(words);
    let Some(begin) = words.next() else {
        return Err(miscounted(found, 3, Some(3)));
    };
    let Some(end) = words.next() else {
        return Err(miscounted(found, 3, Some(3)));
    };
    let Some(minutes) = words.next() else {
        return Err(miscounted(found, 3, Some(3)));
    };
    if let Some(_) = words.next() {
        return Err(miscounted(found, 3, Some(3)));
    }
    *day = Some(day_words(alloc, begin, end, minutes)?);
    Ok(())
}
