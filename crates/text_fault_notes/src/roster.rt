//! Notes on roster texts.

use crate::bytes::byte_note;
use crate::lines::{line_at, words_of};
use crate::refused::{Words, count_note, line_note, text_note, word_note};
use std::alloc::Global;
use text_lines::read_natural;

/// What notes on a roster text begin with.
const NAME: &str = "roster";

/// Why a roster text is refused, at a line.
#[derive(Clone, Copy, Debug, PartialEq, Eq, Drop)]
pub enum RosterWrong {
    /// A byte that no line may hold.
    Byte,
    /// A line of no form.
    Line,
    /// A word behind a shift that is no number.
    Number,
    /// A shift of more than 96 letters.
    Length,
    /// A name of no group.
    Name,
    /// A 65th shift.
    Many,
    /// A report without a roster.
    None,
    /// Too many bytes, whatever the line.
    Long,
}

// Returns the form of a shift's line.
fn form_of(has_groups: bool) -> &'static str {
    if has_groups {
        "shift NAME WORD, or with a number behind it"
    } else {
        "shift WORD, or with a number behind it"
    }
}

// Returns the note on a line of no form.
fn unknown_note(alloc: Global, words: &Words<'_>, has_groups: bool) -> Option<String> {
    if words.word(0) == b"shift".as_slice() {
        return count_note(alloc, NAME, words, form_of(has_groups));
    }
    word_note(
        alloc,
        NAME,
        words,
        0,
        " begins no line of a roster, whose lines begin with shift",
    )
}

// Returns the note on a word behind a shift.
fn price_note(alloc: Global, words: &Words<'_>) -> Option<String> {
    let place = words.count().saturating_sub(1);
    if read_natural(words.word(place)).is_ok() {
        return None;
    }
    word_note(alloc, NAME, words, place, " stands where a number may")
}

// Returns the note on a shift that is too long.
fn length_note(alloc: Global, words: &Words<'_>, has_groups: bool) -> Option<String> {
    let place = if has_groups { 2 } else { 1 };
    let count = words.word(place).len();
    let what = format!(in alloc; "a shift of {count} letters: at most 96").ok()?;
    line_note(alloc, NAME, words.number, what.as_str())
}

// Returns the note on a line of the text, by its words.
fn worded_note(
    alloc: Global,
    text: &[u8],
    has_groups: bool,
    line: u32,
    wrong: RosterWrong,
) -> Option<String> {
    let words = words_of(alloc, &line_at(text, line)?.line)?;
    match wrong {
        RosterWrong::Line => unknown_note(alloc, &words, has_groups),
        RosterWrong::Number => price_note(alloc, &words),
        RosterWrong::Length => length_note(alloc, &words, has_groups),
        RosterWrong::Name => word_note(alloc, NAME, &words, 1, " is no group of the demand"),
        RosterWrong::Many => line_note(alloc, NAME, line, "this is the 65th shift"),
        RosterWrong::None => line_note(
            alloc,
            NAME,
            line,
            "the report says that there is no roster",
        ),
        RosterWrong::Byte | RosterWrong::Long => None,
    }
}

/// Returns what is noted of a roster text that is refused, on a day with groups or without: what stands
/// there, and what is wanted.
pub fn roster_note(
    alloc: Global,
    text: &[u8],
    has_groups: bool,
    line: u32,
    wrong: RosterWrong,
) -> Option<String> {
    match wrong {
        RosterWrong::Byte => byte_note(alloc, NAME, text, line),
        RosterWrong::Long => text_note(alloc, NAME, "more than 1048576 bytes"),
        _ => worded_note(alloc, text, has_groups, line, wrong),
    }
}
