//! The lines of a text in words.

use crate::refused::Words;
use std::alloc::Global;
use text_lines::{Line, Lines};

/// A text that a command reads has at most so many bytes.
const MOST_BYTES: usize = 1_073_741_824;

/// A line, and how many lines with words stand before it.
#[derive(Drop)]
pub(crate) struct Found<'a> {
    pub(crate) line: Line<'a>,
    pub(crate) before: usize,
}

/// Returns the words that a cursor over those of a line of this number still has.
pub fn listed<'a>(
    alloc: Global,
    number: u32,
    words: &mut text_lines::Words<'a>,
) -> Option<Words<'a>> {
    let mut list = Vec::new(alloc);
    while let Some(word) = words.next() {
        list.push(word).ok()?;
    }
    Some(Words { number, list })
}

/// Returns the words of a line.
pub(crate) fn words_of<'a>(alloc: Global, line: &Line<'a>) -> Option<Words<'a>> {
    listed(alloc, line.number(), &mut line.words())
}

/// Returns the line of a number, where it has words.
pub(crate) fn line_at(text: &[u8], number: u32) -> Option<Found<'_>> {
    if MOST_BYTES < text.len() {
        return None;
    }
    let mut lines = Lines::new(text);
    let mut before = 0_usize;
    while let Some(item) = lines.next() {
        let line = item.ok()?;
        if line.number() == number {
            return Some(Found { line, before });
        }
        before = before.saturating_add(1);
    }
    None
}

/// Returns the number of the last line that has words, 0 where none has.
pub(crate) fn last_line(text: &[u8]) -> u32 {
    if MOST_BYTES < text.len() {
        return 0;
    }
    let mut lines = Lines::new(text);
    let mut last = 0_u32;
    while let Some(item) = lines.next() {
        last = match item {
            Ok(line) => line.number(),
            Err(bad) => bad.line,
        };
    }
    last
}

// Whether the word at a place of a line is this one.
fn has_at(line: &Line<'_>, place: usize, word: &[u8]) -> bool {
    match line.word(place) {
        Some(other) => other == word,
        None => false,
    }
}

// Whether the second word of a line is this one, where one is said.
fn has_second(line: &Line<'_>, second: Option<&[u8]>) -> bool {
    match second {
        Some(word) => has_at(line, 1, word),
        None => true,
    }
}

/// Returns the number of the first line that begins with a word and, where one is said, has another behind
/// it.
pub(crate) fn first_line(text: &[u8], first: &[u8], second: Option<&[u8]>) -> Option<u32> {
    if MOST_BYTES < text.len() {
        return None;
    }
    let mut lines = Lines::new(text);
    while let Some(item) = lines.next() {
        let line = item.ok()?;
        if has_at(&line, 0, first) && has_second(&line, second) {
            return Some(line.number());
        }
    }
    None
}

/// Returns the words of the lines above one of a number that begin with a word.
pub(crate) fn lines_above<'a>(
    alloc: Global,
    text: &'a [u8],
    number: u32,
    first: &[u8],
) -> Option<Vec<Words<'a>>> {
    let mut above = Vec::new(alloc);
    if MOST_BYTES < text.len() {
        return Some(above);
    }
    let mut lines = Lines::new(text);
    while let Some(item) = lines.next() {
        let line = item.ok()?;
        if number <= line.number() {
            return Some(above);
        }
        if has_at(&line, 0, first) {
            above.push(words_of(alloc, &line)?).ok()?;
        }
    }
    Some(above)
}
