//! Codes and what they are called in the lines of a labels text.

use crate::lines::first_line;
use model_rosters::{CodeDef, Instance};
use std::alloc::Global;
use text_fault_notes::{Words, word_note};

/// Returns the note on a word that is no code of the rules.
pub(crate) fn code_note(alloc: Global, name: &str, words: &Words<'_>) -> Option<String> {
    let what = if words.word(1).len() == 1 {
        ": no work or idle line of the rules declares the code"
    } else {
        " is no code, which is one byte"
    };
    word_note(alloc, name, words, 1, what)
}

// Whether a word is a code of work.
fn is_work(codes: &[CodeDef], word: &[u8]) -> bool {
    match word {
        [byte] => codes.iter().any(|code| code.work && code.byte == *byte),
        _ => false,
    }
}

// Returns the note on a code of work, of which it is not said whether it is paid or time off.
fn work_note(alloc: Global, name: &str, words: &Words<'_>) -> Option<String> {
    let what = if words.word(0) == b"off".as_slice() {
        " is a code of work, and no time off"
    } else {
        " is a code of work, whose periods count as paid"
    };
    word_note(alloc, name, words, 1, what)
}

// Returns the note on a code that is said to be time off and to be paid.
fn paid_note(alloc: Global, name: &str, text: &[u8], words: &Words<'_>) -> Option<String> {
    let code = words.word(1);
    if words.word(0) == b"off".as_slice() {
        let line = first_line(text, b"paid", Some(code))?;
        let what = format!(in alloc; " counts as paid by line {line}, and is no time off").ok()?;
        return word_note(alloc, name, words, 1, what.as_str());
    }
    let line = first_line(text, b"off", Some(code))?;
    let what = format!(in alloc; " is time off by line {line}, which does not count as paid").ok()?;
    word_note(alloc, name, words, 1, what.as_str())
}

/// Returns the note on a code that cannot be what a line says.
pub(crate) fn kind_note(
    alloc: Global,
    name: &str,
    text: &[u8],
    instance: &Instance,
    words: &Words<'_>,
) -> Option<String> {
    if is_work(instance.grammar.codes.as_slice(), words.word(1)) {
        return work_note(alloc, name, words);
    }
    paid_note(alloc, name, text, words)
}

// Whether a line of this first word stands once for each second word.
fn is_of_second(first: &[u8]) -> bool {
    matches!(first, b"code" | b"group" | b"paid" | b"shift")
}

/// Returns the note on a line that stands twice.
pub(crate) fn twice_note(
    alloc: Global,
    name: &str,
    text: &[u8],
    words: &Words<'_>,
) -> Option<String> {
    let first = words.word(0);
    if !is_of_second(first) {
        let line = first_line(text, first, None)?;
        let what = format!(in alloc; " stands in line {line} already").ok()?;
        return word_note(alloc, name, words, 0, what.as_str());
    }
    let line = first_line(text, first, Some(words.word(1)))?;
    let what = format!(in alloc; " has such a line already, line {line}").ok()?;
    word_note(alloc, name, words, 1, what.as_str())
}
