//! What is noted of the texts by which something is shown.

ghost use Rattle.model_rosters.specs.SoundInstance.{IsSoundInstance};

use crate::old::read_old;
use crate::old_fault::OldFault;
use crate::report::is_report;
use command_texts::check::proof_remark;
use command_texts::what_if::{both, fault_remark};
use model_rosters::Instance;
use page_labels::{Labels, read_labels, refused_shift};
use std::alloc::Global;
use text_fault_notes::{comment_note, proof_note, text_note};
use text_label_notes::{label_note, no_clock_note, shift_note};

/// The status with which a text is refused, or names another shift.
const REFUSED: u8 = 5;

/// What notes on an old text begin with.
const OLD: &str = "old";

// Returns the note on an old text that a text of another kind has, with `old` in place of its first word.
fn renamed(alloc: Global, note: String) -> Option<String> {
    let (_, what) = note.as_str().split_once(": ")?;
    text_note(alloc, OLD, what)
}

// Returns the note on a shift of an old text whose word has another length than the day.
fn length_note(alloc: Global, instance: &Instance, shift: u32) -> Option<String> {
    let periods = instance.grammar.periods;
    let what = format!(in alloc;
        "shift {shift} has another length than the day of {periods} periods"
    ).ok()?;
    text_note(alloc, OLD, what.as_str())
}

// Returns what is noted of an old text that is refused.
fn old_remark(alloc: Global, instance: &Instance, old: &[u8]) -> Option<String>
    requires { IsSoundInstance instance.now }
{
    match read_old(alloc, instance, old) {
        Ok(_) | Err(OldFault::Memory) => None,
        Err(OldFault::Proof(fault)) => renamed(alloc, proof_note(alloc, old, instance, fault)?),
        Err(OldFault::Report(_)) => renamed(alloc, fault_remark(alloc, instance, old)?),
        Err(OldFault::WrongLength { shift }) => length_note(alloc, instance, shift),
    }
}

// Returns what is noted of labels that name another shift than that of a text.
fn names_remark(
    alloc: Global,
    instance: &Instance,
    said: &Labels,
    labels: &[u8],
    text: &[u8],
) -> Option<String>
    requires { IsSoundInstance instance.now }
{
    let shifts = read_old(alloc, instance, text).ok()?;
    let fault = refused_shift(said.shifts.as_slice(), shifts.as_slice())?;
    shift_note(alloc, labels, instance, shifts.as_slice(), fault)
}

// Returns what is noted of an old text that is refused, or of labels that name another shift than that of a
// text.
fn under_remark(
    alloc: Global,
    instance: &Instance,
    said: &Labels,
    labels: &[u8],
    old: Option<&[u8]>,
    text: &[u8],
) -> Option<String>
    requires { IsSoundInstance instance.now }
{
    if let Some(old) = old {
        if let Some(note) = old_remark(alloc, instance, old) {
            return Some(note);
        }
    }
    names_remark(alloc, instance, said, labels, text)
}

// Returns what is noted of the texts that are read beside a proof text or a report.
fn beside_remark(
    alloc: Global,
    instance: &Instance,
    labels: &[u8],
    old: Option<&[u8]>,
    text: &[u8],
) -> Option<String>
    requires { IsSoundInstance instance.now }
{
    match read_labels(alloc, instance, labels) {
        Ok(said) => under_remark(alloc, instance, &said, labels, old, text),
        Err(fault) => label_note(alloc, labels, instance, fault),
    }
}

// Returns what is noted of a proof text or a report that is refused.
fn refused_remark(alloc: Global, instance: &Instance, text: &[u8]) -> Option<String>
    requires { IsSoundInstance instance.now }
{
    if is_report(text) {
        fault_remark(alloc, instance, text)
    } else {
        proof_remark(alloc, instance, text, REFUSED)
    }
}

// Returns what is noted of a comment in the word of a report's shift.
fn comment_remark(alloc: Global, text: &[u8]) -> Option<String> {
    if is_report(text) {
        comment_note(alloc, text)
    } else {
        None
    }
}

/// Returns what is noted beside an answer of this status to a proof text or a report, under a labels text and
/// beside an old text where there are any: what is wrong with the text that is refused, and that a comment
/// stands in a word of the report.
pub(crate) fn drawing_remark(
    alloc: Global,
    instance: &Instance,
    labels: Option<&[u8]>,
    old: Option<&[u8]>,
    text: &[u8],
    status: u8,
) -> Option<String>
    requires { IsSoundInstance instance.now }
{
    let comment = comment_remark(alloc, text);
    if status != REFUSED {
        return comment;
    }
    let labels = labels.unwrap_or(b"");
    let refused = match refused_remark(alloc, instance, text) {
        Some(note) => Some(note),
        None => beside_remark(alloc, instance, labels, old, text),
    };
    both(refused, comment)
}

// Whether a labels text is read, and tells no clock.
fn lacks_clock(alloc: Global, instance: &Instance, labels: &[u8]) -> bool
    requires { IsSoundInstance instance.now }
{
    match read_labels(alloc, instance, labels) {
        Ok(said) => said.clock.is_none(),
        Err(_) => false,
    }
}

// Returns what is noted where a calendar is to have the events of one shift, of which there is none.
fn number_remark(alloc: Global, instance: &Instance, text: &[u8]) -> Option<String>
    requires { IsSoundInstance instance.now }
{
    let shifts = read_old(alloc, instance, text).ok()?;
    let count = shifts.len();
    let what = format!(in alloc; "the roster has {count} shifts").ok()?;
    text_note(alloc, "calendar", what.as_str())
}

// Returns what is noted of the labels text of a calendar, or of its shift.
fn dated_beside(alloc: Global, instance: &Instance, labels: &[u8], text: &[u8]) -> Option<String>
    requires { IsSoundInstance instance.now }
{
    if lacks_clock(alloc, instance, labels) {
        return no_clock_note(alloc);
    }
    match beside_remark(alloc, instance, labels, None, text) {
        Some(note) => Some(note),
        None => number_remark(alloc, instance, text),
    }
}

/// Returns what is noted beside an answer of this status to what asks for a calendar.
pub(crate) fn dated_remark(
    alloc: Global,
    instance: &Instance,
    labels: &[u8],
    text: &[u8],
    status: u8,
) -> Option<String>
    requires { IsSoundInstance instance.now }
{
    let comment = comment_remark(alloc, text);
    if status != REFUSED {
        return comment;
    }
    let refused = match refused_remark(alloc, instance, text) {
        Some(note) => Some(note),
        None => dated_beside(alloc, instance, labels, text),
    };
    both(refused, comment)
}
