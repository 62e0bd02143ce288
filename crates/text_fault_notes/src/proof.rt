//! Notes on proof texts.

use crate::bytes::byte_note;
use crate::lines::{Found, last_line, line_at, words_of};
use crate::numbers::{Numbers, Range, number_note, within};
use crate::refused::{Words, count_note, line_note, shown, text_note, word_note};
use model_rosters::{Grammar, Group, Instance};
use std::alloc::Global;
use text_lines::{NumberFault, read_number};
use text_proof_pieces::ProofFault;

/// What notes on a proof text begin with.
const NAME: &str = "proof";

/// Costs, bounds and prices of shifts are no greater.
const MOST_COST: u128 = 1_099_511_627_776;

/// Prices and multipliers are no greater.
const MOST_PRICE: u128 = 1 << 80;

/// Denominators are no greater.
const MOST_DENOMINATOR: u128 = 1 << 30;

/// Where numbers are due in a proof text.
#[derive(Clone, Copy, Drop)]
struct ProofNumbers {
    has_groups: bool,
}

// Returns the range of a number of a split.
fn split_range(has_groups: bool, place: usize) -> Option<Range> {
    match place {
        1 if has_groups => within(1, 72),
        1 => within(1, 64),
        2 => within(0, 6),
        3 | 4 | 5 => within(1, 96),
        6 => within(0, 63),
        7 => within(1, MOST_DENOMINATOR),
        _ => None,
    }
}

// Returns the range of a cost or a bound, which may be `none`.
fn amount_range(words: &Words<'_>) -> Option<Range> {
    if words.word(1) == b"none".as_slice() {
        return None;
    }
    within(0, MOST_COST)
}

impl Numbers for ProofNumbers {
    // Numbers are due in all lines but those of prices, which may be below 0.
    fn range_at(&self, words: &Words<'_>, place: usize) -> Option<Range> {
        let first = words.word(0);
        let price = if self.has_groups { 3 } else { 2 };
        match first {
            b"cost" | b"bound" if place == 1 => amount_range(words),
            b"shift" if place == price => within(0, MOST_COST),
            b"split" => split_range(self.has_groups, place),
            b"priced" if place == 1 => within(1, MOST_DENOMINATOR),
            b"mult" if place == 2 => within(1, MOST_PRICE),
            _ => None,
        }
    }
}

// Whether a group has this name.
fn has_name(grammar: &Grammar, group: &Group, word: &[u8]) -> bool {
    match grammar.names.as_slice().get(group.name as usize) {
        Some(name) => name.as_slice() == word,
        None => false,
    }
}

// Whether the name that stands in the line of a shift is one of a group.
fn is_group(instance: &Instance, word: &[u8]) -> bool {
    let groups = instance.groups.as_slice();
    groups
        .iter()
        .any(|group| has_name(&instance.grammar, group, word))
}

// Returns the note on a number of a shift's line, or on its name or its word.
fn shift_note(alloc: Global, instance: &Instance, words: &Words<'_>) -> Option<String> {
    let has_groups = !instance.groups.is_empty();
    if has_groups && !is_group(instance, words.word(1)) {
        return word_note(alloc, NAME, words, 1, " is no group of the demand");
    }
    let count = words.word(if has_groups { 2 } else { 1 }).len();
    if 96 < count {
        let what = format!(in alloc; "a shift of {count} letters: at most 96").ok()?;
        return line_note(alloc, NAME, words.number, what.as_str());
    }
    number_note(alloc, NAME, &ProofNumbers { has_groups }, words).or(line_note(
        alloc,
        NAME,
        words.number,
        "this is the 65th shift",
    ))
}

// Returns the note on a price, which may be below 0.
fn price_note(alloc: Global, words: &Words<'_>) -> Option<String> {
    for (place, word) in words.list.iter().enumerate() {
        if 2 <= place {
            match read_number(word) {
                Ok(price) if price.unsigned_abs() <= MOST_PRICE => {}
                Err(NumberFault::Form) => {
                    return word_note(alloc, NAME, words, place, " is no number");
                }
                _ => {
                    return word_note(
                        alloc,
                        NAME,
                        words,
                        place,
                        ": at most 2^80, or at least -2^80",
                    );
                }
            }
        }
    }
    None
}

// Returns the note on a number of a line.
fn numbers_note(alloc: Global, instance: &Instance, words: &Words<'_>) -> Option<String> {
    let first = words.word(0);
    if first == b"shift".as_slice() {
        return shift_note(alloc, instance, words);
    }
    if first == b"price".as_slice() {
        return price_note(alloc, words);
    }
    let has_groups = !instance.groups.is_empty();
    number_note(alloc, NAME, &ProofNumbers { has_groups }, words).or(line_note(
        alloc,
        NAME,
        words.number,
        "the numbers of mult lines rise, up to the cuts on the path, in at most 1500 lines",
    ))
}

// Returns the form of a line, by its first word.
fn form_of(has_groups: bool, first: &[u8]) -> Option<&'static str> {
    match first {
        b"shift" if has_groups => Some("shift NAME WORD PRICE"),
        b"shift" => Some("shift WORD PRICE"),
        b"split" => Some("split R K I L S B, or with D behind it"),
        b"priced" => Some("priced D"),
        b"pinned" => Some("pinned"),
        b"bare" => Some("bare"),
        b"price" => Some(
            "price C and a number for each period, for the needed codes in their order",
        ),
        b"mult" => Some("mult J V"),
        _ => None,
    }
}

// Returns the note on a line of no form, or at a place where it may not stand.
fn unknown_note(
    alloc: Global,
    has_groups: bool,
    words: &Words<'_>,
    before: usize,
) -> Option<String> {
    match before {
        1 => return word_note(alloc, NAME, words, 0, " stands where cost X is wanted"),
        2 => return word_note(alloc, NAME, words, 0, " stands where bound X is wanted"),
        _ => {}
    }
    match form_of(has_groups, words.word(0)) {
        Some(form) => count_note(alloc, NAME, words, form),
        None => word_note(
            alloc,
            NAME,
            words,
            0,
            " begins no line that may stand here: one of a shift, a node or its prices",
        ),
    }
}

// Returns the note on a header that is not the one for the day.
fn header_note(alloc: Global, has_groups: bool, words: &Words<'_>) -> Option<String> {
    let what = if has_groups {
        " stands first; proof 2 is wanted, since the day has groups"
    } else {
        " stands first; proof 1 is wanted, since the day has no groups"
    };
    let first = shown(alloc, words.word(0))?;
    if words.count() == 1 {
        return word_note(alloc, NAME, words, 0, what);
    }
    let second = shown(alloc, words.word(1))?;
    let text = format!(in alloc; "{} {}{what}", first.as_str(), second.as_str()).ok()?;
    line_note(alloc, NAME, words.number, text.as_str())
}

// Returns the note on a line behind the end.
fn trailing_note(alloc: Global, words: &Words<'_>) -> Option<String> {
    word_note(
        alloc,
        NAME,
        words,
        0,
        ": the tree of nodes is whole, and end is the last line",
    )
}

// Returns the note on a line of the text, by its words.
fn worded_note(
    alloc: Global,
    text: &[u8],
    instance: &Instance,
    line: u32,
    fault: ProofFault,
) -> Option<String> {
    let Found { line, before } = line_at(text, line)?;
    let words = words_of(alloc, &line)?;
    let has_groups = !instance.groups.is_empty();
    match fault {
        ProofFault::UnknownLine { .. } => unknown_note(alloc, has_groups, &words, before),
        ProofFault::BadNumber { .. } | ProofFault::OutOfRange { .. } => {
            numbers_note(alloc, instance, &words)
        }
        ProofFault::BadHeader { .. } => header_note(alloc, has_groups, &words),
        ProofFault::Trailing { .. } => trailing_note(alloc, &words),
        ProofFault::TooManyNodes { .. } => {
            line_note(alloc, NAME, words.number, "this is the 20002nd node")
        }
        _ => None,
    }
}

// Returns the note on a text without its end.
fn short_note(alloc: Global, text: &[u8]) -> Option<String> {
    let last = last_line(text);
    let what = format!(in alloc; "the last line is line {last}, and a line end is wanted").ok()?;
    text_note(alloc, NAME, what.as_str())
}

/// Returns what is noted of a proof text that is refused for a fault, on a day: what stands there, and what
/// is wanted.
pub fn proof_note(
    alloc: Global,
    text: &[u8],
    instance: &Instance,
    fault: ProofFault,
) -> Option<String> {
    match fault {
        ProofFault::BadByte { line } => byte_note(alloc, NAME, text, line),
        ProofFault::UnknownLine { line }
        | ProofFault::BadNumber { line }
        | ProofFault::OutOfRange { line }
        | ProofFault::BadHeader { line }
        | ProofFault::Trailing { line }
        | ProofFault::TooManyNodes { line } => worded_note(alloc, text, instance, line, fault),
        ProofFault::CutShort => short_note(alloc, text),
        ProofFault::TooLong => text_note(alloc, NAME, "more than 1073741824 bytes"),
        ProofFault::Memory => None,
    }
}
