//! The lines of a text on which its parts stand, for notes.

use text_lines::{Line, Lines};

/// The greatest size of a rules text and of a demand text.
const MOST_BYTES: usize = 1_048_576;

/// How a line is known.
#[derive(Clone, Copy)]
pub enum Mark<'a> {
    /// Its second word is this one.
    Second(&'a [u8]),
    /// One of the words after the first is this one.
    Any(&'a [u8]),
}

// Whether one of the words after the first is this one.
fn has_word(line: &Line<'_>, word: &[u8]) -> bool {
    let mut words = line.words();
    let mut place = 0_usize;
    while let Some(other) = words.next() {
        if place > 0 && other == word {
            return true;
        }
        place = place.saturating_add(1);
    }
    false
}

// Whether the word at a place of a line is this one.
fn has_at(line: &Line<'_>, place: usize, word: &[u8]) -> bool {
    match line.word(place) {
        Some(other) => other == word,
        None => false,
    }
}

// Whether a line is known so.
fn is_marked(line: &Line<'_>, mark: Mark<'_>) -> bool {
    match mark {
        Mark::Second(word) => has_at(line, 1, word),
        Mark::Any(word) => has_word(line, word),
    }
}

/// Returns the number of the line that begins with a word and is so often, from 1, the next of them.
pub fn nth_line(text: &[u8], first: &[u8], nth: usize) -> Option<u32> {
    if text.len() > MOST_BYTES {
        return None;
    }
    let mut lines = Lines::new(text);
    let mut left = nth;
    while let Some(item) = lines.next() {
        let line = item.ok()?;
        if has_at(&line, 0, first) {
            left = left.saturating_sub(1);
            if left == 0 {
                return Some(line.number());
            }
        }
    }
    None
}

/// Returns the number of the first line that begins with a word and is known so.
pub fn marked_line(text: &[u8], first: &[u8], mark: Mark<'_>) -> Option<u32> {
    if text.len() > MOST_BYTES {
        return None;
    }
    let mut lines = Lines::new(text);
    while let Some(item) = lines.next() {
        let line = item.ok()?;
        if has_at(&line, 0, first) && is_marked(&line, mark) {
            return Some(line.number());
        }
    }
    None
}
