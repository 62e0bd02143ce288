//! What a shift is called, and what it has when.

ghost use Rattle.std.specs.Prelude.{◌≡◌, ◌≤◌, ◌++◌, IfOk, OnOk, length};
ghost use Rattle.std.specs.Fmt.{decimal};
ghost use Rattle.page_csv.specs.roster_calendar.Events.{
  break_of,
  called,
  code_text,
  description_of,
  lead_of,
  lies_in,
  piece_text,
  summary_of,
  times_of,
};

use crate::{Piece, name_of, pieces_of};
use model_rosters::{CodeDef, List, Memory};
use model_shift_figures::Stretch;
use page_labels::{Clock, Labels, put_time};
use std::alloc::Global;
use text_lines::{put, write_number};

/// Appends a number.
///
/// # Errors
///
/// `Memory` where memory runs out; `out` is as it was before then.
pub(crate) fn put_number(out: &mut List<u8>, value: u64) -> Result<(), Memory>
    ensures { OnOk result (out.new ≡ out.old ++ decimal value) }
{
    write_number(out, value as i128)?;
    Ok(())
}

/// Returns a shift by its group, where there is one, and its number.
///
/// # Errors
///
/// `Memory` where memory runs out; nothing is kept then.
#[tactic(auto, unfolding(crate::specs::roster_calendar::Events::summary_of))]
pub(crate) fn summary_of(alloc: Global, group: &[u8], number: u64) -> Result<List<u8>, Memory>
    ensures { IfOk result (λ text. text ≡ summary_of group.now number) }
{
    let mut text = List::new(alloc);
    if group.len() > 0 {
        put(&mut text, group)?;
        put(&mut text, b": shift ")?;
    } else {
        put(&mut text, b"Shift ")?;
    }
    put_number(&mut text, number)?;
    Ok(text)
}

/// Returns who works a shift, or else the shift by its group and its number.
#[tactic(auto, unfolding(crate::specs::roster_calendar::Events::called))]
pub(crate) fn called<'a>(name: &'a [u8], shift: &'a [u8]) -> &'a [u8]
    ensures { result.now ≡ called name.now shift.now }
{
    if name.len() > 0 { name } else { shift }
}

/// Returns the group and the number of a shift with a line feed, where it is called by a name, and else
/// nothing.
///
/// # Errors
///
/// `Memory` where memory runs out; nothing is kept then.
#[tactic(auto, unfolding(crate::specs::roster_calendar::Events::lead_of))]
pub(crate) fn lead_of(alloc: Global, name: &[u8], shift: &[u8]) -> Result<List<u8>, Memory>
    ensures { IfOk result (λ text. text ≡ lead_of name.now shift.now) }
{
    let mut text = List::new(alloc);
    if name.len() > 0 {
        put(&mut text, shift)?;
        text.push(b'\n')?;
    }
    Ok(text)
}

// Returns what a code is called: by its label, or by its byte.
#[tactic(auto, unfolding(crate::specs::roster_calendar::Events::code_text))]
fn put_code(out: &mut List<u8>, name: &[u8], byte: u8) -> Result<(), Memory>
    ensures { OnOk result (out.new ≡ out.old ++ code_text name.now byte) }
{
    if name.len() > 0 {
        put(out, name)
    } else {
        out.push(byte)
    }
}

// Whether a stretch of one code lies within an event.
fn lies_in(stretch: Stretch, piece: Piece) -> bool
    ensures { result ≡ lies_in stretch piece }
{
    stretch.first <= piece.first && piece.last <= stretch.last
}

// Appends a line feed, but before the first stretch of one code.
#[tactic(auto, unfolding(crate::specs::roster_calendar::Events::break_of))]
fn put_break(out: &mut List<u8>, stretch: Stretch, piece: Piece) -> Result<(), Memory>
    ensures { OnOk result (out.new ≡ out.old ++ break_of stretch piece) }
{
    if piece.first == stretch.first {
        Ok(())
    } else {
        out.push(b'\n')
    }
}

// Appends when a stretch of one code begins and ends.
fn put_times(out: &mut List<u8>, clock: Clock, piece: Piece) -> Result<(), Memory>
    ensures { OnOk result (out.new ≡ out.old ++ times_of clock piece) }
{
    put_time(out, clock, piece.first.saturating_sub(1))?;
    put(out, b"-")?;
    put_time(out, clock, piece.last)
}

// Appends a stretch of one code, where it lies within an event.
#[tactic(auto, unfolding(crate::specs::roster_calendar::Events::piece_text))]
fn put_piece(
    out: &mut List<u8>,
    codes: &[CodeDef],
    labels: &Labels,
    clock: Clock,
    stretch: Stretch,
    piece: Piece,
) -> Result<(), Memory>
    requires { length codes.now ≤ 32 }
    ensures { OnOk result (out.new ≡ out.old ++ piece_text codes.now labels.now clock stretch piece) }
{
    if !lies_in(stretch, piece) {
        return Ok(());
    }
    put_break(out, stretch, piece)?;
    put_times(out, clock, piece)?;
    put(out, b" ")?;
    put_code(out, name_of(codes, labels, piece.byte), piece.byte)
}

/// Returns the greatest stretches of one code within an event of a word of at most 96 letters, with their
/// times.
///
/// # Errors
///
/// `Memory` where memory runs out; nothing is kept then.
#[tactic(auto, unfolding(crate::specs::roster_calendar::Events::description_of))]
pub(crate) fn description_of(
    alloc: Global,
    codes: &[CodeDef],
    labels: &Labels,
    clock: Clock,
    stretch: Stretch,
    word: &[u8],
) -> Result<List<u8>, Memory>
    requires codes { length codes.now ≤ 32 }
    requires short { length word.now ≤ 96 }
    ensures { IfOk result (λ text. text ≡ description_of codes.now labels.now clock stretch word.now) }
{
    let pieces = pieces_of(alloc, word)?;
    let mut text = List::new(alloc);
    for piece in pieces.as_slice() {
        put_piece(&mut text, codes, labels, clock, stretch, *piece)?;
    }
    Ok(text)
}
