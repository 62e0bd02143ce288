//! What is noted of the events of shifts.

ghost use Rattle.std.specs.Prelude.{◌≡◌};
ghost use Rattle.model_rosters.specs.SoundInstance.{IsSoundInstance};

use crate::old::read_old;
use command_shelf::Shelf;
use model_rosters::{CodeDef, Instance, Shift};
use model_shift_figures::is_work;
use page_labels::{Clock, Labels, PaidCode, read_labels};
use std::alloc::Global;

/// So many minutes without work between work are noted.
const LONG_MINUTES: u32 = 360;

// How many periods the longest time without work between work has.
fn longest_gap(codes: &[CodeDef], word: &[u8]) -> u32 {
    let mut longest: u32 = 0;
    let mut gap: u32 = 0;
    let mut has_worked = false;
    for byte in word {
        if is_work(codes, *byte) {
            if has_worked && longest < gap {
                longest = gap;
            }
            has_worked = true;
            gap = 0;
        } else {
            gap = gap.saturating_add(1);
        }
    }
    longest
}

// How many minutes the longest time without work between the work of a shift has.
fn gap_minutes(codes: &[CodeDef], clock: Clock, shift: &Shift) -> u32 {
    longest_gap(codes, shift.word.as_slice()).saturating_mul(clock.minutes as u32)
}

// Whether the code at a place has a byte.
fn has_byte(codes: &[CodeDef], place: u8, byte: u8) -> bool {
    match codes.get(place as usize) {
        None => false,
        Some(code) => code.byte == byte,
    }
}

// Whether a byte is that of a code that is said to count as paid.
fn is_paid_code(codes: &[CodeDef], paid: &[PaidCode], byte: u8) -> bool {
    for said in paid {
        if said.paid && has_byte(codes, said.code, byte) {
            return true;
        }
    }
    false
}

// Whether paid codes that are no work stand before the first work of a shift or behind its last.
fn begins_or_ends_paid(codes: &[CodeDef], paid: &[PaidCode], shift: &Shift) -> bool {
    let mut has_worked = false;
    let mut is_before = false;
    let mut is_behind = false;
    for byte in shift.word.as_slice() {
        if is_work(codes, *byte) {
            has_worked = true;
            is_behind = false;
        } else if is_paid_code(codes, paid, *byte) {
            is_before = is_before || !has_worked;
            is_behind = has_worked;
        }
    }
    has_worked && (is_before || is_behind)
}

// Returns what is noted of the first shift that has a long time without work between its work.
fn gap_text(
    alloc: Global,
    codes: &[CodeDef],
    clock: Option<Clock>,
    shifts: &[Shift],
) -> Option<String> {
    let clock = clock?;
    let mut number: u32 = 0;
    for shift in shifts {
        number = number.saturating_add(1);
        let minutes = gap_minutes(codes, clock, shift);
        if LONG_MINUTES <= minutes {
            let hours = minutes / 60;
            return format!(in alloc;
                "shift {number} has {hours} hours or more without work between its work, \
and one event over them: the labels have no line off C, which says the code of time off"
            )
            .ok();
        }
    }
    None
}

// Returns what is noted of the first shift that begins or ends with a paid code that is no work.
fn paid_text(
    alloc: Global,
    codes: &[CodeDef],
    paid: &[PaidCode],
    shifts: &[Shift],
) -> Option<String> {
    let mut number: u32 = 0;
    for shift in shifts {
        number = number.saturating_add(1);
        if begins_or_ends_paid(codes, paid, shift) {
            return format!(in alloc;
                "shift {number} begins or ends with a paid code that is no work, \
which its event leaves out: the labels have no line off C, which says the code of time off"
            )
            .ok();
        }
    }
    None
}

// Notes a text, where there is one.
fn note_text<S: Shelf>(shelf: &mut S, text: Option<String>)
    ensures { S.told shelf.new ≡ S.told shelf.old }
{
    match text {
        Some(text) => shelf.note(text.as_str()),
        None => {}
    }
}

// Notes what is odd about the events of shifts under labels.
fn note_shifts<S: Shelf>(
    alloc: Global,
    shelf: &mut S,
    instance: &Instance,
    labels: &Labels,
    shifts: &[Shift],
)
    ensures { S.told shelf.new ≡ S.told shelf.old }
{
    let codes = instance.grammar.codes.as_slice();
    note_text(shelf, gap_text(alloc, codes, labels.clock, shifts));
    note_text(
        shelf,
        paid_text(alloc, codes, labels.paid.as_slice(), shifts),
    );
}

// Notes the same, where the labels do not say which code is time off, of the shifts of a text.
fn note_roster<S: Shelf>(
    alloc: Global,
    shelf: &mut S,
    instance: &Instance,
    labels: &Labels,
    text: &[u8],
)
    requires { IsSoundInstance instance.now }
    ensures { S.told shelf.new ≡ S.told shelf.old }
{
    if labels.off.is_some() {
        return;
    }
    match read_old(alloc, instance, text) {
        Ok(shifts) => note_shifts(alloc, shelf, instance, labels, shifts.as_slice()),
        Err(_) => {}
    }
}

// Notes, under a labels text, what `note_events` says.
fn note_labelled<S: Shelf>(
    alloc: Global,
    shelf: &mut S,
    instance: &Instance,
    labels: &[u8],
    text: &[u8],
)
    requires { IsSoundInstance instance.now }
    ensures { S.told shelf.new ≡ S.told shelf.old }
{
    match read_labels(alloc, instance, labels) {
        Ok(labels) => note_roster(alloc, shelf, instance, &labels, text),
        Err(_) => {}
    }
}

/// Notes, where a labels text does not say which code is time off, what the event of a shift of a proof text
/// or a report has that a reader may not expect: six hours or more without work between its work, and that it
/// leaves out a paid code at its begin or end. Nothing is noted with another status than 0, nor without a
/// labels text.
pub(crate) fn note_events<S: Shelf>(
    alloc: Global,
    shelf: &mut S,
    instance: &Instance,
    labels: Option<&[u8]>,
    text: &[u8],
    status: u8,
)
    requires { IsSoundInstance instance.now }
    ensures { S.told shelf.new ≡ S.told shelf.old }
{
    if status != 0 {
        return;
    }
    match labels {
        Some(labels) => note_labelled(alloc, shelf, instance, labels, text),
        None => {}
    }
}
