//! Lines, folded.

ghost use Rattle.std.specs.Prelude.{◌≡◌, ◌≤◌, ◌++◌, OnOk};
ghost use Rattle.page_csv.specs.roster_calendar.Folds.{folded, folded_byte, goes_on, line_text, room_behind, text_of, width};

use model_rosters::{List, Memory};
use text_lines::put;

// A row of a folded line has at most so many bytes.
const ROW: u8 = 75;

// Whether a byte goes on with a character in UTF-8.
fn goes_on(byte: u8) -> bool
    ensures { result ≡ goes_on byte }
{
    128 <= byte && byte < 192
}

// Returns how many bytes the character has that a byte begins; 0 where it begins none.
#[tactic(auto, unfolding(crate::specs::roster_calendar::Folds::width))]
fn width(byte: u8) -> u8
    ensures { result ≡ width byte }
{
    if goes_on(byte) {
        return 0;
    }
    if byte < 128 {
        return 1;
    }
    if byte < 224 {
        return 2;
    }
    if byte < 240 { 3 } else { 4 }
}

// Appends a byte of a line, behind a fold where there is no more room for its character.
#[tactic(auto, unfolding(crate::specs::roster_calendar::Folds::folded_byte))]
fn put_byte(out: &mut List<u8>, room: u8, byte: u8) -> Result<(), Memory>
    ensures { OnOk result (out.new ≡ out.old ++ folded_byte room byte) }
{
    if room < width(byte) {
        put(out, &[b'\r', b'\n', b' ', byte])
    } else {
        out.push(byte)
    }
}

// Returns the room behind a byte; the space of a fold takes a byte of its row.
#[tactic(auto, unfolding(crate::specs::roster_calendar::Folds::room_behind))]
fn room_behind(room: u8, byte: u8) -> u8
    ensures { result ≡ room_behind room byte }
{
    if room < width(byte) {
        ROW - 2
    } else {
        room.saturating_sub(1)
    }
}

// Appends a line, folded.
fn put_folded(out: &mut List<u8>, line: &[u8]) -> Result<(), Memory>
    ensures { OnOk result (out.new ≡ out.old ++ folded line.now) }
{
    let mut room = ROW;
    for byte in line {
        put_byte(out, room, *byte)?;
        room = room_behind(room, *byte);
    }
    Ok(())
}

// Appends a line, folded, with its end.
fn put_line(out: &mut List<u8>, line: &[u8]) -> Result<(), Memory>
    ensures { OnOk result (out.new ≡ out.old ++ line_text line.now) }
{
    put_folded(out, line)?;
    put(out, b"\r\n")
}

/// Appends the text of lines.
///
/// # Errors
///
/// `Memory` where memory runs out; a part may stand in `out` then.
pub(crate) fn put_lines(out: &mut List<u8>, lines: &[List<u8>]) -> Result<(), Memory>
    ensures { OnOk result (out.new ≡ out.old ++ text_of lines.now) }
{
    for line in lines {
        put_line(out, line.as_slice())?;
    }
    Ok(())
}
