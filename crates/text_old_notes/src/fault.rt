//! Why the shifts of an old text are not read.

use crate::lines::words_at;
use model_rosters::Instance;
use std::alloc::Global;
use text_fault_notes::{count_note, line_note, proof_note, text_note, word_note};
use text_old_shifts::OldFault;
use text_proof_pieces::ProofFault;

const FORM: &str =
    "shift WORD, or with a number behind it; behind proof 2 and report 2 a name stands before WORD";

// Returns the note on a line with a bad byte, which is that on a proof text behind another name.
fn byte_note(
    alloc: Global,
    name: &str,
    instance: &Instance,
    text: &[u8],
    line: u32,
) -> Option<String> {
    let note = proof_note(alloc, text, instance, ProofFault::BadByte { line })?;
    let what = note.as_str().strip_prefix("proof: ")?;
    text_note(alloc, name, what)
}

// Returns the note on a line of a shift of no form.
fn form_note(alloc: Global, name: &str, text: &[u8], line: u32) -> Option<String> {
    let words = words_at(alloc, text, line)?;
    count_note(alloc, name, &words, FORM)
}

// Returns the note on the word behind that of a shift.
fn price_note(alloc: Global, name: &str, text: &[u8], line: u32) -> Option<String> {
    let words = words_at(alloc, text, line)?;
    let place = words.count().saturating_sub(1);
    word_note(alloc, name, &words, place, " stands where a number may")
}

/// Returns what is noted of an old text whose shifts are not read for a fault: what stands there, and what is
/// wanted. Nothing where the text begins with no line of an old text, or is too long. The note begins with a
/// name.
pub fn old_note(
    alloc: Global,
    name: &str,
    instance: &Instance,
    text: &[u8],
    fault: OldFault,
) -> Option<String> {
    match fault {
        OldFault::BadByte { line } => byte_note(alloc, name, instance, text, line),
        OldFault::UnknownLine { line } => form_note(alloc, name, text, line),
        OldFault::BadNumber { line } => price_note(alloc, name, text, line),
        OldFault::OutOfRange { line } => {
            line_note(alloc, name, line, "a shift of more than 96 letters")
        }
        OldFault::TooManyShifts { line } => {
            line_note(alloc, name, line, "this is the 65th shift")
        }
        OldFault::NoRoster { line } => line_note(
            alloc,
            name,
            line,
            "the report says that there is no roster",
        ),
        OldFault::BadHeader { .. } | OldFault::CutShort | OldFault::TooLong | OldFault::Memory => {
            None
        }
    }
}
