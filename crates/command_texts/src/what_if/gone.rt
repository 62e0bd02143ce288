//! What is noted of a report from which shifts are gone, as where somebody is ill.

use crate::what_if::limits::MOST_ROSTER;
use check_values::begins_report;
use model_rosters::Instance;
use std::alloc::Global;
use text_lines::{Line, Lines, read_within};

/// How many shifts a report says it has, and how many stand in it.
#[derive(Clone, Copy)]
struct Counts {
    /// The line that says how many there are; 0 before it.
    line: u32,
    /// How many it says.
    said: u32,
    /// How many lines of shifts there are.
    there: u32,
}

// Returns the number of shifts that a line says, where it is the line `shifts COUNT`.
fn said_by(line: &Line<'_>) -> Option<u32> {
    if line.word(0)? != b"shifts".as_slice() {
        return None;
    }
    match read_within(0, 64, (), (), line.word(1)?) {
        Ok(count) => Some(count as u32),
        Err(()) => None,
    }
}

// Whether a line is one of a shift.
fn is_shift(line: &Line<'_>) -> bool {
    match line.word(0) {
        Some(word) => word == b"shift".as_slice(),
        None => false,
    }
}

// Returns the counts with a line.
fn with_line(counts: Counts, line: &Line<'_>) -> Counts {
    if is_shift(line) {
        return Counts {
            there: counts.there.saturating_add(1),
            ..counts
        };
    }
    match said_by(line) {
        Some(said) => Counts {
            line: line.number(),
            said,
            ..counts
        },
        None => counts,
    }
}

// Counts the shifts of a roster text that is a report; `None` where it is none, or has a bad byte.
fn counts_of(text: &[u8]) -> Option<Counts> {
    if MOST_ROSTER < text.len() || !begins_report(text) {
        return None;
    }
    let mut lines = Lines::new(text);
    let mut counts = Counts {
        line: 0,
        said: 0,
        there: 0,
    };
    while let Some(item) = lines.next() {
        counts = with_line(counts, &item.ok()?);
    }
    Some(counts)
}

// Returns which lines of the demand let how many work.
fn heads_lines(instance: &Instance) -> &'static str {
    if instance.groups.is_empty() {
        "the heads line still lets"
    } else {
        "the group lines still let"
    }
}

// Returns the note on shifts that are gone.
fn gone_text(alloc: Global, instance: &Instance, counts: Counts) -> Option<String> {
    let Counts { line, said, there } = counts;
    let gone = said.saturating_sub(there);
    let lines = heads_lines(instance);
    let most = instance.heads_max;
    format!(in alloc;
        "roster: line {line}: {gone} of {said} shifts gone, and {lines} {most} work"
    ).ok()
}

/// Returns what is noted of a report that says more shifts than stand in it, where as many as it says may
/// still work; nothing after want of memory.
pub(crate) fn gone_note(alloc: Global, instance: &Instance, text: &[u8]) -> Option<String> {
    let counts = counts_of(text)?;
    if counts.said <= counts.there || instance.heads_max < counts.said {
        return None;
    }
    gone_text(alloc, instance, counts)
}
