//! Words that have to be numbers.

use crate::refused::{Words, word_note};
use std::alloc::Global;
use text_lines::{NumberFault, read_natural};

/// From where to where a number may be.
#[derive(Clone, Copy)]
pub struct Range {
    /// The least number.
    pub low: u128,
    /// The greatest number.
    pub high: u128,
}

/// Where numbers are due in the lines of a text.
pub trait Numbers {
    /// Returns from where to where the number at a place of a line may be, from 0; nothing where none is due.
    fn range_at(&self, words: &Words<'_>, place: usize) -> Option<Range>;
}

/// Returns a range.
pub fn within(low: u128, high: u128) -> Option<Range> {
    Some(Range { low, high })
}

/// What is wrong with a number.
#[derive(Clone, Copy)]
enum Wrong {
    Form,
    Below(u128),
    Above(u128),
}

// Returns what is wrong with a word as a number of a range.
fn wrong_of(range: Range, word: &[u8]) -> Option<Wrong> {
    match read_natural(word) {
        Ok(number) if number < range.low => Some(Wrong::Below(range.low)),
        Ok(number) if range.high < number => Some(Wrong::Above(range.high)),
        Ok(_) => None,
        Err(NumberFault::Form) => Some(Wrong::Form),
        Err(NumberFault::Wide) => Some(Wrong::Above(range.high)),
    }
}

/// Returns the number at a place of a line, or another one where there is none.
pub(crate) fn number_or(words: &Words<'_>, place: usize, otherwise: u128) -> u128 {
    read_natural(words.word(place)).unwrap_or(otherwise)
}

// Returns the first number of a line that may not stand there, and its place.
fn first_wrong<N: Numbers>(numbers: &N, words: &Words<'_>) -> Option<(usize, Wrong)> {
    for (place, word) in words.list.iter().enumerate() {
        if let Some(range) = numbers.range_at(words, place) {
            if let Some(wrong) = wrong_of(range, word) {
                return Some((place, wrong));
            }
        }
    }
    None
}

// Returns what a note says of a number.
fn wrong_text(alloc: Global, wrong: Wrong) -> Option<String> {
    match wrong {
        Wrong::Form => String::from_str(
            alloc,
            " is no number, which is of digits alone, the first of them 0 only in 0",
        )
        .ok(),
        Wrong::Below(low) => format!(in alloc; ": at least {low}").ok(),
        Wrong::Above(high) => format!(in alloc; ": at most {high}").ok(),
    }
}

/// Returns the note on the first number of a line that may not stand there.
pub fn number_note<N: Numbers>(
    alloc: Global,
    name: &str,
    numbers: &N,
    words: &Words<'_>,
) -> Option<String> {
    let (place, wrong) = first_wrong(numbers, words)?;
    let what = wrong_text(alloc, wrong)?;
    word_note(alloc, name, words, place, what.as_str())
}
