//! Notes on labels texts.

use crate::amounts::amount_note;
use crate::bytes::byte_note;
use crate::lines::words_at;
use crate::names::{code_note, kind_note, twice_note};
use model_rosters::Instance;
use page_labels::LabelFault;
use std::alloc::Global;
use text_fault_notes::{Words, count_note, text_note, word_note};

/// What notes on a labels text begin with.
pub(crate) const NAME: &str = "labels";

// Returns the form of a line, by its first word.
fn form_of(first: &[u8], has_groups: bool) -> Option<&'static str> {
    match first {
        b"title" => Some("title WORDS"),
        b"clock" => Some("clock TIME MINUTES"),
        b"code" => Some("code C WORDS"),
        b"group" => Some("group NAME WORDS"),
        b"money" => Some("money WORDS"),
        b"decimals" => Some("decimals N"),
        b"paid" => Some("paid C yes, or paid C no"),
        b"off" => Some("off C"),
        b"shift" if has_groups => Some("shift N GROUP WORD WORDS"),
        b"shift" => Some("shift N WORD WORDS"),
        _ => None,
    }
}

// Returns the note on a line of no form.
fn unknown_note(alloc: Global, words: &Words<'_>, has_groups: bool) -> Option<String> {
    let first = words.word(0);
    if first == b"paid".as_slice() && words.count() == 3 {
        return word_note(alloc, NAME, words, 2, " stands where yes or no is wanted");
    }
    match form_of(first, has_groups) {
        Some(form) => count_note(alloc, NAME, words, form),
        None => word_note(
            alloc,
            NAME,
            words,
            0,
            " begins no line; the lines begin with title, clock, code, group, money, decimals, paid, off and shift",
        ),
    }
}

// Returns the place of the group's name in a line, from 0.
fn group_place(words: &Words<'_>) -> usize {
    if words.word(0) == b"shift".as_slice() {
        2
    } else {
        1
    }
}

// Returns the note on a line of the text, by its words.
fn worded_note(
    alloc: Global,
    text: &[u8],
    instance: &Instance,
    line: u32,
    fault: LabelFault,
) -> Option<String> {
    let words = words_at(alloc, text, line)?;
    let has_groups = !instance.groups.is_empty();
    match fault {
        LabelFault::UnknownLine { .. } => unknown_note(alloc, &words, has_groups),
        LabelFault::BadNumber { .. } | LabelFault::OutOfRange { .. } => {
            amount_note(alloc, NAME, &words, has_groups)
        }
        LabelFault::UnknownCode { .. } => code_note(alloc, NAME, &words),
        LabelFault::NoName { .. } => word_note(
            alloc,
            NAME,
            &words,
            group_place(&words),
            " is no group of the demand",
        ),
        LabelFault::BadName { .. } => kind_note(alloc, NAME, text, instance, &words),
        LabelFault::Twice { .. } => twice_note(alloc, NAME, text, &words),
        _ => None,
    }
}

/// Returns what is noted of a labels text that is refused for a fault, on a day: what stands there, and what
/// is wanted. Nothing of a name that stands at another shift, of which [`crate::shift_note`] tells.
pub fn label_note(
    alloc: Global,
    text: &[u8],
    instance: &Instance,
    fault: LabelFault,
) -> Option<String> {
    match fault {
        LabelFault::BadByte { line } => byte_note(alloc, NAME, text, line),
        LabelFault::UnknownLine { line }
        | LabelFault::BadNumber { line }
        | LabelFault::OutOfRange { line }
        | LabelFault::UnknownCode { line }
        | LabelFault::NoName { line }
        | LabelFault::BadName { line }
        | LabelFault::Twice { line } => worded_note(alloc, text, instance, line, fault),
        LabelFault::TooLong => text_note(alloc, NAME, "more than 65536 bytes"),
        LabelFault::AnotherShift { .. } | LabelFault::NoShift { .. } | LabelFault::Memory => None,
    }
}

/// Returns what is noted of a labels text that tells no clock, where one is wanted.
pub fn no_clock_note(alloc: Global) -> Option<String> {
    text_note(
        alloc,
        NAME,
        "a line clock TIME MINUTES is wanted: when the first period begins, as 7:00, and how long a period is",
    )
}
