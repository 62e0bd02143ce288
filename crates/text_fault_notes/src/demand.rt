//! Notes on demand texts.

use crate::bytes::byte_note;
use crate::lines::{first_line, line_at, lines_above, words_of};
use crate::numbers::{Numbers, Range, number_note, number_or, within};
use crate::refused::{Words, count_note, line_note, text_note, word_note};
use std::alloc::Global;
use text_demand_lines::DemandFault;

/// What notes on a demand text begin with.
const NAME: &str = "demand";

/// Where numbers are due in a demand text.
#[derive(Clone, Copy, Drop)]
struct DemandNumbers {
    /// How many employees there may be beside those of the groups above.
    free: u128,
}

// Returns the range of a least or a greatest number of employees, of which the first stands at a place.
fn heads_range(words: &Words<'_>, first: usize, most: u128, place: usize) -> Option<Range> {
    if place == first {
        return within(0, 64);
    }
    if place == first.saturating_add(1) {
        return within(number_or(words, first, 1).max(1), most);
    }
    None
}

impl Numbers for DemandNumbers {
    // Numbers are due in each line, behind a name or a code.
    fn range_at(&self, words: &Words<'_>, place: usize) -> Option<Range> {
        let first = words.word(0);
        if first == b"heads".as_slice() {
            return heads_range(words, 1, 64, place);
        }
        if first == b"group".as_slice() {
            return heads_range(words, 2, self.free, place);
        }
        if first == b"need".as_slice() && (place == 2 || place == 3) {
            return within(0, 10_000);
        }
        if 2 <= place { within(0, 64) } else { None }
    }
}

// Returns how many employees there may be beside those of the groups above a line.
fn free_heads(alloc: Global, text: &[u8], line: u32) -> Option<u128> {
    let mut free = 64_u128;
    for group in lines_above(alloc, text, line, b"group")?.as_slice() {
        free = free.saturating_sub(number_or(group, 3, 0));
    }
    Some(free)
}

// Returns the note on a number, and how many employees are left where there are groups above.
fn heads_note(alloc: Global, text: &[u8], words: &Words<'_>) -> Option<String> {
    let free = free_heads(alloc, text, words.number)?;
    number_note(alloc, NAME, &DemandNumbers { free }, words)
}

// Returns the note on a line of no form.
fn unknown_note(alloc: Global, words: &Words<'_>) -> Option<String> {
    let first = words.word(0);
    if first == b"heads".as_slice() {
        return count_note(alloc, NAME, words, "heads A B");
    }
    if first == b"group".as_slice() {
        return count_note(alloc, NAME, words, "group NAME A B");
    }
    if first == b"need".as_slice() {
        return count_note(alloc, NAME, words, "need C UNDER OVER N ..");
    }
    if first == b"least".as_slice() || first == b"most".as_slice() {
        return line_note(
            alloc,
            NAME,
            words.number,
            "a code is wanted behind the first word",
        );
    }
    let what = " begins no line; the lines begin with heads, group, need, least and most";
    word_note(alloc, NAME, words, 0, what)
}

// Returns the note on a line that stands twice.
fn twice_note(alloc: Global, text: &[u8], words: &Words<'_>) -> Option<String> {
    let first = words.word(0);
    if first == b"heads".as_slice() {
        let line = first_line(text, first, None)?;
        let what = format!(in alloc; " stands in line {line} already").ok()?;
        return word_note(alloc, NAME, words, 0, what.as_str());
    }
    let line = first_line(text, first, Some(words.word(1)))?;
    let what = format!(in alloc; " has such a line already, line {line}").ok()?;
    word_note(alloc, NAME, words, 1, what.as_str())
}

// Returns how many numbers stand in a line, behind the words before them.
fn numbers_in(words: &Words<'_>) -> usize {
    let first = words.word(0);
    let before = if first == b"need".as_slice() { 4 } else { 2 };
    words.count().saturating_sub(before)
}

// Returns the note on the count of a line's numbers.
fn periods_note(alloc: Global, words: &Words<'_>, periods: u8) -> Option<String> {
    let found = numbers_in(words);
    let what = format!(in alloc; "{found} numbers, the day has {periods} periods").ok()?;
    line_note(alloc, NAME, words.number, what.as_str())
}

// Returns the note on a heads line beside group lines.
fn mixed_note(alloc: Global, text: &[u8], words: &Words<'_>) -> Option<String> {
    let other = if words.word(0) == b"heads".as_slice() {
        "group"
    } else {
        "heads"
    };
    let line = first_line(text, other.as_bytes(), None)?;
    let what = format!(in alloc; ": line {line} begins with {other}; a day has either").ok()?;
    word_note(alloc, NAME, words, 0, what.as_str())
}

// Returns the note on a word that is no work code.
fn work_note(alloc: Global, words: &Words<'_>) -> Option<String> {
    if words.word(1).len() != 1 {
        return word_note(alloc, NAME, words, 1, " is no code, which is one byte");
    }
    word_note(
        alloc,
        NAME,
        words,
        1,
        ": no work line of the rules declares the code",
    )
}

// Returns the note on a line of the text, by its words.
fn worded_note(
    alloc: Global,
    text: &[u8],
    periods: u8,
    line: u32,
    fault: DemandFault,
) -> Option<String> {
    let words = words_of(alloc, &line_at(text, line)?.line)?;
    match fault {
        DemandFault::UnknownLine { .. } => unknown_note(alloc, &words),
        DemandFault::BadNumber { .. } | DemandFault::OutOfRange { .. } => {
            heads_note(alloc, text, &words)
        }
        DemandFault::NotWork { .. } => work_note(alloc, &words),
        DemandFault::Twice { .. } => twice_note(alloc, text, &words),
        DemandFault::WrongCount { .. } => periods_note(alloc, &words, periods),
        DemandFault::NoNeed { .. } => {
            word_note(
                alloc,
                NAME,
                &words,
                1,
                ": no need line of the code stands above",
            )
        }
        DemandFault::NoName { .. } => word_note(alloc, NAME, &words, 1, " is no name of the rules"),
        DemandFault::Mixed { .. } => mixed_note(alloc, text, &words),
        DemandFault::TooManyGroups { .. } => {
            word_note(alloc, NAME, &words, 1, " is the 9th group")
        }
        _ => None,
    }
}

/// Returns what is noted of a demand text that is refused for a fault, on a day of so many periods: what
/// stands there, and what is wanted.
pub fn demand_note(alloc: Global, text: &[u8], periods: u8, fault: DemandFault) -> Option<String> {
    match fault {
        DemandFault::BadByte { line } => byte_note(alloc, NAME, text, line),
        DemandFault::UnknownLine { line }
        | DemandFault::BadNumber { line }
        | DemandFault::OutOfRange { line }
        | DemandFault::NotWork { line }
        | DemandFault::Twice { line }
        | DemandFault::WrongCount { line, .. }
        | DemandFault::NoNeed { line }
        | DemandFault::NoName { line }
        | DemandFault::Mixed { line }
        | DemandFault::TooManyGroups { line } => worded_note(alloc, text, periods, line, fault),
        DemandFault::NoHeads => text_note(
            alloc,
            NAME,
            "a line heads A B is wanted, or a line group NAME A B of each group",
        ),
        DemandFault::TooLong => text_note(alloc, NAME, "more than 1048576 bytes"),
        DemandFault::Memory => None,
    }
}
