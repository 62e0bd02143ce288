//! A line.

ghost use Rattle.std.specs.Prelude.{◌≡◌, ◌≢◌, [], ◌∷◌};
ghost use Rattle.text_lines.specs.Words.{words};
ghost use Rattle.plan_faults.specs.declared.fault.LineFault.TheVariants.{Memory as out_of_memory, Stand};
ghost use Rattle.plan_faults.specs.declared.fault.StandFault.TheVariants.{Unknown};
ghost use Rattle.plan_fields.specs.Steps.{Reads};
ghost use Rattle.plan_lines.specs.Lines.{kind_line, line_at, word_line};

use crate::day::{day_line, title_line};
use crate::draft_line::draft_line;
use crate::kind::{is_free, kind_of};
use crate::reading::Reading;
use crate::signs::{is_plain, signs_of};
use model_rosters::Memory;
use plan_faults::{Kind, LineFault, Signs, StandFault};
use plan_fields::copy;
use std::alloc::Global;
use text_lines::Words;

// Reads a line of a kind, behind its first word.
#[tactic(auto, unfolding(crate::specs::Lines::kind_line))]
fn kind_line(
    alloc: Global,
    reading: &mut Reading,
    number: u32,
    kind: Kind,
    words: &mut Words<'_>,
) -> Result<(), LineFault>
    ensures { Reads (λ _. (reading.new)) result (kind_line number reading.old kind words.old) }
{
    match kind {
        Kind::Title => title_line(alloc, &mut reading.title, words),
        Kind::Day => day_line(alloc, &mut reading.day, words),
        _ => match &reading.day {
            Some(day) => draft_line(alloc, day, &mut reading.draft, number, kind, words),
            None => Err(LineFault::Stand {
                fault: StandFault::DayFirst,
            }),
        },
    }
}

// Returns the fault of a word that begins no line.
fn unknown(alloc: Global, word: &[u8]) -> LineFault
    ensures { result ≢ out_of_memory → result ≡ Stand (Unknown word.now) }
{
    match copy(alloc, word) {
        Ok(word) => LineFault::Stand {
            fault: StandFault::Unknown { word },
        },
        Err(Memory) => LineFault::Memory,
    }
}

// Reads a line by its first word.
#[tactic(auto, unfolding(crate::specs::Lines::word_line))]
fn word_line(
    alloc: Global,
    reading: &mut Reading,
    number: u32,
    body: &[u8],
    word: &[u8],
    words: &mut Words<'_>,
) -> Result<(), LineFault>
    ensures { Reads (λ _. (reading.new)) result (word_line number reading.old body.now word.now words.old) }
{
    let kind = kind_of(word);
    if !is_free(kind) && !is_plain(body) {
        return Err(LineFault::Signs {
            signs: Signs::NotPlain,
        });
    }
    match kind {
        Some(kind) => kind_line(alloc, reading, number, kind, words),
        None => Err(unknown(alloc, word)),
    }
}

/// Reads a line of the number `number`, before its comment, and adds what it says.
///
/// # Errors
///
/// The first fault of the line; `Memory` where memory runs out. Nothing is said of the reading then.
#[tactic(auto, unfolding(crate::specs::Lines::line_at))]
pub(crate) fn read_line(
    alloc: Global,
    reading: &mut Reading,
    number: u32,
    body: &[u8],
) -> Result<(), LineFault>
    ensures { Reads (λ _. (reading.new)) result (line_at number reading.old body.now) }
{
    if let Some(signs) = signs_of(body) {
        return Err(LineFault::Signs { signs });
    }
    let mut words = Words::new(body);
    match words.next() {
        Some(word) => word_line(alloc, reading, number, body, word, &mut words),
        None => Ok(()),
    }
}
