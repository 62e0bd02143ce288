//! Which form a line has.

ghost use Rattle.std.specs.Prelude.{◌≡◌};
ghost use Rattle.text_proof_pieces.specs.PieceList.{is_end};
ghost use Rattle.text_proof_pieces.specs.PriceLines.{is_mult};
ghost use Rattle.text_proof_pieces.specs.ShiftLines.{is_pair, is_header, shift_width, is_shift, amount_line};

use crate::fault::PieceFault;
use crate::field::amount;
use model_rosters::Group;
use text_lines::{Line, Words, words_left};

// Says whether the words are these two.
fn is_pair(words: &mut Words<'_>, first: &[u8], second: &[u8]) -> bool
    ensures { result ≡ is_pair first.now second.now words.old }
{
    let Some(v) = words.next() else {
        return false;
    };
    let Some(w) = words.next() else {
        return false;
    };
    if let Some(_) = words.next() {
        return false;
    }
    v == first && w == second
}

/// Whether the line is the header of a text for these groups.
pub fn is_header(groups: &[Group], line: &Line<'_>) -> bool
    ensures { result ≡ is_header groups.now line.now.words }
{
    let mut words = line.words();
    if groups.is_empty() {
        is_pair(&mut words, b"proof", b"1")
    } else {
        is_pair(&mut words, b"proof", b"2")
    }
}

/// Whether the line is `end`.
pub fn is_end(line: &Line<'_>) -> bool
    ensures { result ≡ is_end line.now.words }
{
    let mut words = line.words();
    let Some(first) = words.next() else {
        return false;
    };
    if let Some(_) = words.next() {
        return false;
    }
    first == b"end".as_slice()
}

/// Whether the line has the form of a multiplier's.
pub fn is_mult(line: &Line<'_>) -> bool
    ensures { result ≡ is_mult line.now.words }
{
    let mut words = line.words();
    let Some(first) = words.next() else {
        return false;
    };
    let Some(_) = words.next() else {
        return false;
    };
    let Some(_) = words.next() else {
        return false;
    };
    if let Some(_) = words.next() {
        return false;
    }
    first == b"mult".as_slice()
}

// Returns how many words stand behind the first one on a shift's line.
fn shift_width(groups: &[Group]) -> usize
    ensures { result ≡ shift_width groups.now }
{
    if groups.is_empty() { 2 } else { 3 }
}

/// Whether the line has the form of a shift's for these groups.
#[tactic(auto, unfolding(crate::specs::ShiftLines::is_shift))]
pub fn is_shift(groups: &[Group], line: &Line<'_>) -> bool
    ensures { result ≡ is_shift groups.now line.now.words }
{
    let mut words = line.words();
    let Some(first) = words.next() else {
        return false;
    };
    if first != b"shift".as_slice() {
        return false;
    }
    let mut rest = words.again();
    words_left(&mut rest) == shift_width(groups)
}

/// Reads a line of a cost or a bound, which begins with this word.
///
/// # Errors
///
/// `UnknownLine` where the line is not of this word and one more, else `BadNumber` or `OutOfRange`, with the
/// line's number.
#[tactic(auto, unfolding(crate::specs::ShiftLines::amount_line))]
pub fn amount_line(line: &Line<'_>, first: &[u8]) -> Result<Option<u64>, PieceFault>
    ensures { result ≡ amount_line line.now.number first.now line.now.words }
{
    let number = line.number();
    let mut words = line.words();
    let Some(v) = words.next() else {
        return Err(PieceFault::UnknownLine { line: number });
    };
    let Some(w) = words.next() else {
        return Err(PieceFault::UnknownLine { line: number });
    };
    if let Some(_) = words.next() {
        return Err(PieceFault::UnknownLine { line: number });
    }
    if v != first {
        return Err(PieceFault::UnknownLine { line: number });
    }
    amount(number, w)
}
