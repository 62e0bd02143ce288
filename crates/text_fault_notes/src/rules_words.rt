//! The words of a rule's line.

use crate::numbers::{Numbers, Range, number_or, within};
use crate::refused::Words;
use model_rosters::{is_code_byte, is_name};

/// The symbols of a rule begin at this place, from 0.
pub(crate) const SYMBOLS: usize = 4;

// Whether a word begins a window.
fn is_window_word(word: &[u8]) -> bool {
    word == b"len".as_slice() || word == b"begin".as_slice() || word == b"end".as_slice()
}

/// Returns the place at which the windows of a rule begin, from 0; past the last word where it has none.
pub(crate) fn windows_at(words: &Words<'_>) -> usize {
    for (place, word) in words.list.iter().enumerate() {
        if SYMBOLS <= place && is_window_word(word) {
            return place;
        }
    }
    words.count()
}

/// Where numbers are due in a rules text.
#[derive(Clone, Copy, Drop)]
pub(crate) struct RulesNumbers;

// Returns the range of a number of a rule's line.
fn rule_range(words: &Words<'_>, place: usize) -> Option<Range> {
    if place == 2 {
        return within(0, 10_000);
    }
    let behind = place.checked_sub(windows_at(words))?;
    match behind % 3 {
        1 => within(1, 96),
        2 => within(number_or(words, place.saturating_sub(1), 1), 96),
        _ => None,
    }
}

impl Numbers for RulesNumbers {
    // Numbers are due in `periods` and `rule` lines.
    fn range_at(&self, words: &Words<'_>, place: usize) -> Option<Range> {
        let first = words.word(0);
        if first == b"periods".as_slice() && place == 1 {
            return within(1, 96);
        }
        if first == b"rule".as_slice() {
            return rule_range(words, place);
        }
        None
    }
}

/// Whether a word is a code between quotes.
pub(crate) fn is_quoted(word: &[u8]) -> bool {
    match word {
        [b'\'', byte, b'\''] => is_code_byte(*byte),
        _ => false,
    }
}

/// Whether a word is one byte of a code.
pub(crate) fn is_code(word: &[u8]) -> bool {
    match word {
        [byte] => is_code_byte(*byte),
        _ => false,
    }
}

/// Returns the place of the first symbol of a rule that is neither a code nor a name, from 0.
pub(crate) fn bad_symbol(words: &Words<'_>) -> Option<usize> {
    let end = windows_at(words);
    for (place, word) in words.list.iter().enumerate() {
        if SYMBOLS <= place && place < end && !is_quoted(word) && !is_name(word) {
            return Some(place);
        }
    }
    None
}

/// Returns the place of the first word behind the first that is no code, from 0.
pub(crate) fn bad_code(words: &Words<'_>) -> Option<usize> {
    for (place, word) in words.list.iter().enumerate() {
        if 0 < place && !is_code(word) {
            return Some(place);
        }
    }
    None
}

/// Returns the place of the first word from a place on that stands before in the line, behind the first word.
pub(crate) fn said_again(words: &Words<'_>, from: usize) -> Option<usize> {
    for (place, word) in words.list.iter().enumerate() {
        if from <= place && stands_between(words, from, place, word) {
            return Some(place);
        }
    }
    None
}

// Whether a word stands from one place on and before another.
fn stands_between(words: &Words<'_>, from: usize, end: usize, word: &[u8]) -> bool {
    for (place, other) in words.list.iter().enumerate() {
        if from <= place && place < end && *other == word {
            return true;
        }
    }
    false
}

/// Whether a word stands behind the first one in one of these lines.
pub(crate) fn stands_in(lines: &[Words<'_>], word: &[u8]) -> Option<u32> {
    for line in lines {
        if stands_between(line, 1, line.count(), word) {
            return Some(line.number);
        }
    }
    None
}
