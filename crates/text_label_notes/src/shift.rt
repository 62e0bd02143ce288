//! Notes on names of a labels text that stand at other shifts.

use crate::label::NAME;
use crate::lines::words_at;
use model_rosters::{Instance, Shift};
use page_labels::LabelFault;
use std::alloc::Global;
use text_fault_notes::{Words, shown, word_note};
use text_lines::read_natural;

// Returns the shift of the number that a line says.
fn numbered<'a>(words: &Words<'_>, shifts: &'a [Shift]) -> Option<&'a Shift> {
    let number = read_natural(words.word(1)).ok()?;
    shifts.get(usize::try_from(number.checked_sub(1)?).ok()?)
}

// Returns the name of the group of a shift; nothing on a day without groups.
fn group_of<'a>(instance: &'a Instance, shift: &Shift) -> Option<&'a [u8]> {
    let place = (shift.group as usize).checked_sub(1)?;
    let group = instance.groups.as_slice().get(place)?;
    let name = instance.grammar.names.as_slice().get(group.name as usize)?;
    Some(name.as_slice())
}

// Returns the note that a shift is one of another group.
fn group_note(alloc: Global, words: &Words<'_>, group: &[u8]) -> Option<String> {
    let number = shown(alloc, words.word(1))?;
    let group = shown(alloc, group)?;
    let what = format!(in alloc; ": shift {} is one of {}", number.as_str(), group.as_str()).ok()?;
    word_note(alloc, NAME, words, 2, what.as_str())
}

// Returns the note that a shift has another word, which stands in the line at a place.
fn shift_word_note(
    alloc: Global,
    words: &Words<'_>,
    place: usize,
    shift: &Shift,
) -> Option<String> {
    let number = shown(alloc, words.word(1))?;
    let word = shown(alloc, shift.word.as_slice())?;
    let what = format!(in alloc; ": shift {} is {}", number.as_str(), word.as_str()).ok()?;
    word_note(alloc, NAME, words, place, what.as_str())
}

// Returns the note on a name that stands at another shift.
fn another_note(
    alloc: Global,
    instance: &Instance,
    words: &Words<'_>,
    shift: &Shift,
) -> Option<String> {
    match group_of(instance, shift) {
        None => shift_word_note(alloc, words, 2, shift),
        Some(group) if words.word(2) != group => group_note(alloc, words, group),
        Some(_) => shift_word_note(alloc, words, 3, shift),
    }
}

// Returns the note on a number beyond the shifts.
fn no_shift_note(alloc: Global, words: &Words<'_>, count: usize) -> Option<String> {
    let what = format!(in alloc; ": the roster has {count} shifts").ok()?;
    word_note(alloc, NAME, words, 1, what.as_str())
}

/// Returns what is noted of a labels text that names a shift which the roster of a day does not have under
/// its number: which shift stands there, or how many there are.
pub fn shift_note(
    alloc: Global,
    text: &[u8],
    instance: &Instance,
    shifts: &[Shift],
    fault: LabelFault,
) -> Option<String> {
    match fault {
        LabelFault::AnotherShift { line } => {
            let words = words_at(alloc, text, line)?;
            let shift = numbered(&words, shifts)?;
            another_note(alloc, instance, &words, shift)
        }
        LabelFault::NoShift { line } => {
            let words = words_at(alloc, text, line)?;
            no_shift_note(alloc, &words, shifts.len())
        }
        _ => None,
    }
}
