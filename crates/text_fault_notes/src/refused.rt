//! A line that is refused, and notes on it.

use std::alloc::Global;

/// A word of more bytes is not shown in a note.
const MOST_SHOWN: usize = 40;

/// The words of a line.
#[derive(Drop)]
pub struct Words<'a> {
    /// The line, from 1.
    pub number: u32,
    /// Its words, before its comment.
    pub list: Vec<&'a [u8]>,
}

impl<'a> Words<'a> {
    /// Returns the word at a place, from 0; no bytes past the last.
    pub fn word(&self, place: usize) -> &'a [u8] {
        match self.list.get(place) {
            Some(word) => word,
            None => &[],
        }
    }

    /// Returns how many words there are.
    pub fn count(&self) -> usize {
        self.list.len()
    }
}

// Whether a byte may be shown.
fn is_shown(byte: u8) -> bool {
    33 <= byte && byte <= 126
}

/// Returns a word as a note shows it: itself, or how long it is, or that it is not all printable ASCII.
pub fn shown(alloc: Global, word: &[u8]) -> Option<String> {
    if MOST_SHOWN < word.len() {
        return format!(in alloc; "a word of {} bytes", word.len()).ok();
    }
    if !word.iter().all(|byte| is_shown(*byte)) {
        return String::from_str(alloc, "a word that is not all printable ASCII").ok();
    }
    String::from_str(alloc, str::from_utf8(word).ok()?).ok()
}

/// Returns the note that a line of a text says something.
pub fn line_note(alloc: Global, name: &str, line: u32, what: &str) -> Option<String> {
    format!(in alloc; "{name}: line {line}: {what}").ok()
}

/// Returns the note that a whole text says something.
pub fn text_note(alloc: Global, name: &str, what: &str) -> Option<String> {
    format!(in alloc; "{name}: {what}").ok()
}

/// Returns the note on the word of a line at a place, from 0, that it is something.
pub fn word_note(
    alloc: Global,
    name: &str,
    words: &Words<'_>,
    place: usize,
    what: &str,
) -> Option<String> {
    let number = words.number;
    let at = place.saturating_add(1);
    let word = shown(alloc, words.word(place))?;
    format!(in alloc; "{name}: line {number}, word {at}: {word}{what}").ok()
}

/// Returns the note that a line has another number of words than a form.
pub fn count_note(alloc: Global, name: &str, words: &Words<'_>, form: &str) -> Option<String> {
    let number = words.number;
    let count = words.count();
    format!(in alloc; "{name}: line {number}: {count} words; the form is {form}").ok()
}
