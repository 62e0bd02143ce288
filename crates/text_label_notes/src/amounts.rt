//! Numbers, times and the lengths of words in the lines of a labels text.

use std::alloc::Global;
use text_fault_notes::{Numbers, Range, Words, line_note, number_note, within, word_note};

/// Words have at most so many bytes.
const MOST_BYTES: usize = 60;

/// Where numbers are due in a labels text.
#[derive(Clone, Copy, Drop)]
struct LabelNumbers;

impl Numbers for LabelNumbers {
    // Numbers are due in the lines of the clock, of decimals and of shifts.
    fn range_at(&self, words: &Words<'_>, place: usize) -> Option<Range> {
        match words.word(0) {
            b"clock" if place == 2 => within(1, 1440),
            b"decimals" if place == 1 => within(0, 4),
            b"shift" if place == 1 => within(1, 4_294_967_295),
            _ => None,
        }
    }
}

// Returns the value of a digit.
fn digit(byte: u8) -> Option<u8> {
    if byte < b'0' || b'9' < byte {
        return None;
    }
    Some(byte.saturating_sub(b'0'))
}

// Returns the number of two digits.
fn two(tens: u8, ones: u8) -> Option<u8> {
    Some(digit(tens)?.saturating_mul(10).saturating_add(digit(ones)?))
}

// Returns the hours and the minutes of a word that is a time, whatever they are.
fn time_of(word: &[u8]) -> Option<(u8, u8)> {
    match word {
        [h, b':', a, b] => Some((digit(*h)?, two(*a, *b)?)),
        [g, h, b':', a, b] => Some((two(*g, *h)?, two(*a, *b)?)),
        _ => None,
    }
}

// Returns what is wrong with a word as a time.
fn wrong_time(word: &[u8]) -> Option<&'static str> {
    match time_of(word) {
        None => Some(" is no time, which is H:MM or HH:MM"),
        Some((hours, minutes)) if 23 < hours || 59 < minutes => {
            Some(": at most 23 hours and 59 minutes")
        }
        Some(_) => None,
    }
}

// Returns the note on the time of a clock's line.
fn time_note(alloc: Global, name: &str, words: &Words<'_>) -> Option<String> {
    if words.word(0) != b"clock".as_slice() {
        return None;
    }
    word_note(alloc, name, words, 1, wrong_time(words.word(1))?)
}

// Returns the place at which the words of a line begin that are shown on a page, from 0.
fn shown_from(words: &Words<'_>, has_groups: bool) -> usize {
    match words.word(0) {
        b"title" | b"money" => 1,
        b"shift" if has_groups => 4,
        b"shift" => 3,
        _ => 2,
    }
}

// Returns how many bytes the words from a place on have, with one space between them.
fn bytes_from(words: &Words<'_>, from: usize) -> usize {
    let mut count = 0_usize;
    for (place, word) in words.list.iter().enumerate() {
        if from < place {
            count = count.saturating_add(1);
        }
        if from <= place {
            count = count.saturating_add(word.len());
        }
    }
    count
}

// Returns the note on words that are too long.
fn length_note(alloc: Global, name: &str, words: &Words<'_>, has_groups: bool) -> Option<String> {
    let count = bytes_from(words, shown_from(words, has_groups));
    if count <= MOST_BYTES {
        return None;
    }
    let what = format!(in alloc; "words of {count} bytes: at most {MOST_BYTES}").ok()?;
    line_note(alloc, name, words.number, what.as_str())
}

/// Returns the note on the first number or time of a line that may not stand there, or on words that are too
/// long.
pub(crate) fn amount_note(
    alloc: Global,
    name: &str,
    words: &Words<'_>,
    has_groups: bool,
) -> Option<String> {
    time_note(alloc, name, words)
        .or(number_note(alloc, name, &LabelNumbers, words))
        .or(length_note(alloc, name, words, has_groups))
}
