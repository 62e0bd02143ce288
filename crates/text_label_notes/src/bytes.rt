//! Bytes of a labels text that no line may hold, and the word in which each stands.

use crate::lines::words_at;
use std::alloc::Global;
use text_fault_notes::{Words, line_note, text_note};

/// What is wrong with a word.
#[derive(Clone, Copy)]
enum Wrong {
    /// A byte at which no character of UTF-8 stands.
    Byte(u8),
    /// A character that no line may hold.
    Character(u32),
}

// Whether a line may hold a character before its comment.
fn may_stand(code: u32) -> bool {
    let is_control = code < 0x20 || (0x7f <= code && code <= 0x9f);
    let is_turn = (0x2028 <= code && code <= 0x202e) || (0x2066 <= code && code <= 0x2069);
    !is_control && !is_turn
}

// Returns the first character of a word that no line may hold.
fn wrong_character(word: &str) -> Option<Wrong> {
    for c in word.chars() {
        let code = c as u32;
        if !may_stand(code) {
            return Some(Wrong::Character(code));
        }
    }
    None
}

// Returns what is wrong with a word.
fn wrong_of(word: &[u8]) -> Option<Wrong> {
    match str::from_utf8(word) {
        Ok(word) => wrong_character(word),
        Err(fault) => word.get(fault.valid_up_to()).map(|byte| Wrong::Byte(*byte)),
    }
}

// Returns the first word of a line with which something is wrong, its place from 1, and what it is.
fn first_wrong(words: &Words<'_>) -> Option<(usize, Wrong)> {
    for (place, word) in words.list.iter().enumerate() {
        if let Some(wrong) = wrong_of(word) {
            return Some((place.saturating_add(1), wrong));
        }
    }
    None
}

// Returns what a note says of a word.
fn wrong_text(alloc: Global, wrong: Wrong) -> Option<String> {
    match wrong {
        Wrong::Byte(byte) => format!(in alloc;
            "the byte {byte} stands in no character of UTF-8"
        ).ok(),
        Wrong::Character(code) => format!(in alloc;
            "the character U+{code:04X} may stand in no line"
        ).ok(),
    }
}

// Returns the note on the first word of a line with which something is wrong.
fn word_fault(alloc: Global, name: &str, text: &[u8], line: u32) -> Option<String> {
    let words = words_at(alloc, text, line)?;
    let (place, wrong) = first_wrong(&words)?;
    let what = wrong_text(alloc, wrong)?;
    format!(in alloc; "{name}: line {line}, word {place}: {what}; only a comment may hold it").ok()
}

// Whether a text begins as one in UTF-16 does, with a mark or with a zero byte.
fn is_wide(text: &[u8]) -> bool {
    text.starts_with(b"\xff\xfe")
        || text.starts_with(b"\xfe\xff")
        || text.iter().take(4).any(|byte| *byte == 0)
}

/// Returns the note on the first word of a line that holds what no line may, or that the text is in UTF-16.
pub(crate) fn byte_note(alloc: Global, name: &str, text: &[u8], line: u32) -> Option<String> {
    if is_wide(text) {
        return text_note(alloc, name, "the text is in UTF-16: save it as UTF-8");
    }
    word_fault(alloc, name, text, line).or(line_note(
        alloc,
        name,
        line,
        "only a comment may hold a carriage return within a line",
    ))
}
