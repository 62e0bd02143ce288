//! The lines of a labels text in words, which are bytes of UTF-8.

use std::alloc::Global;
use text_fault_notes::{Words, listed};

/// The byte order mark that a text may begin with.
const MARK: &[u8] = b"\xef\xbb\xbf";

// Returns a text without the byte order mark at its begin.
fn without_mark(text: &[u8]) -> &[u8] {
    text.strip_prefix(MARK).unwrap_or(text)
}

// Returns the bytes of a line before its comment, and before the carriage return at its end.
fn body_of(line: &[u8]) -> &[u8] {
    let end = line.iter().position(|byte| *byte == b'#');
    match end {
        Some(end) => line.get(..end).unwrap_or(line),
        None => line.strip_suffix(b"\r").unwrap_or(line),
    }
}

/// Returns the bytes of the line of a number before its comment.
pub(crate) fn body_at(text: &[u8], number: u32) -> Option<&[u8]> {
    let mut at = 0_u32;
    for line in without_mark(text).split(|byte| *byte == b'\n') {
        at = at.saturating_add(1);
        if at == number {
            return Some(body_of(line));
        }
    }
    None
}

/// Returns the words of the line of a number.
pub(crate) fn words_at(alloc: Global, text: &[u8], number: u32) -> Option<Words<'_>> {
    let mut words = text_lines::Words::new(body_at(text, number)?);
    listed(alloc, number, &mut words)
}

// Whether the next word is this one.
fn goes_on(words: &mut text_lines::Words<'_>, word: &[u8]) -> bool {
    match words.next() {
        Some(other) => other == word,
        None => false,
    }
}

// Whether a line begins with a word and, where one is said, has another behind it.
fn begins(line: &[u8], first: &[u8], second: Option<&[u8]>) -> bool {
    let mut words = text_lines::Words::new(body_of(line));
    if !goes_on(&mut words, first) {
        return false;
    }
    match second {
        Some(word) => goes_on(&mut words, word),
        None => true,
    }
}

/// Returns the number of the first line that begins with a word and, where one is said, has another behind
/// it.
pub(crate) fn first_line(text: &[u8], first: &[u8], second: Option<&[u8]>) -> Option<u32> {
    let mut number = 0_u32;
    for line in without_mark(text).split(|byte| *byte == b'\n') {
        number = number.saturating_add(1);
        if begins(line, first, second) {
            return Some(number);
        }
    }
    None
}
