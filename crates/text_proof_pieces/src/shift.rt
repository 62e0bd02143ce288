//! The line of a shift.

ghost use Rattle.std.specs.Prelude.{ℕ, ◌≡◌, ◌≤◌, ◌<◌, nat_le, if◌then◌else◌, Ok, Err, length, IfOk, MatchOption, MatchResult};
ghost use Rattle.std.specs.Option.{option_copied};
ghost use Rattle.model_rosters.specs.declared.instance.Instance.{Instance as Day};
ghost use Rattle.text_proof_pieces.specs.declared.fault.PieceFault.TheVariants.{UnknownLine, OutOfRange};
ghost use Rattle.text_proof_pieces.specs.ShiftLines.{team_at, letters_of, shift_of, shift_at};

use crate::fault::PieceFault;
use crate::field::{group, number};
use crate::room::CertRoom;
use check_certificates::MOST_COST;
use model_rosters::Instance;
use text_lines::{Line, Words};

/// A roster has at most so many shifts.
const MOST_SHIFTS: u32 = 64;

/// What a shift line says, apart from the word.
#[derive(Clone, Copy, Drop)]
pub struct ShiftLine {
    pub group: u8,
    pub price: u64,
}

// The words of a shift line, apart from the first.
#[derive(Clone, Copy, Drop)]
struct ShiftWords<'a> {
    group: Option<&'a [u8]>,
    word: &'a [u8],
    price: &'a [u8],
}

// Takes the words of a shift line.
#[tactic(auto, unfolding(crate::specs::ShiftLines::shift_at))]
fn shift_words<'a>(words: &mut Words<'a>) -> Option<ShiftWords<'a>>
    ensures { MatchOption result
        ((k : ℕ) (i : Day) (n : ℕ) → shift_at k i n words.old ≡ Err (UnknownLine k))
        (λ w. (k : ℕ) (i : Day) (n : ℕ) → shift_at k i n words.old ≡ (if nat_le 64 n then Err (OutOfRange k)
        else shift_of k i (option_copied w.group) w.word.now w.price.now)) }
{
    let Some(_) = words.next() else {
        return None;
    };
    let Some(first) = words.next() else {
        return None;
    };
    let Some(second) = words.next() else {
        return None;
    };
    let third = words.next();
    if let Some(_) = words.next() {
        return None;
    }
    match third {
        None => Some(ShiftWords {
            group: None,
            word: first,
            price: second,
        }),
        Some(price) => Some(ShiftWords {
            group: Some(first),
            word: second,
            price,
        }),
    }
}

// Reads the number of a shift's group, or 0 where none is named.
fn team(line: u32, instance: &Instance, name: Option<&[u8]>) -> Result<u8, PieceFault>
    requires { length instance.now.groups ≤ 8 }
    ensures { result ≡ team_at line instance.now.grammar.names instance.now.groups (option_copied name.entry) }
{
    let Some(name) = name else {
        return Ok(0);
    };
    let names = instance.grammar.names.as_slice();
    group(line, names, instance.groups.as_slice(), name)
}

// Reads the word, which the room then holds, and the price.
#[tactic(auto, unfolding(crate::specs::ShiftLines::letters_of))]
fn letters(
    room: &mut CertRoom,
    line: u32,
    group: u8,
    word: &[u8],
    price: &[u8],
) -> Result<ShiftLine, PieceFault>
    ensures value { MatchResult result
        (λ s. letters_of line group word.now price.now ≡ Ok
        (record { group = s.group; word = room.new.word; price = s.price }))
        (λ e. letters_of line group word.now price.now ≡ Err e) }
    ensures kept { room.new ≡ record room.old { word = room.new.word } }
{
    if 96 < word.len() {
        return Err(PieceFault::OutOfRange { line });
    }
    let price = number(line, 0, u128::from(MOST_COST), price)? as u64;
    room.hold_word(word);
    Ok(ShiftLine { group, price })
}

/// Reads the line of a shift, before which so many shifts stand. The room then holds its word.
///
/// # Errors
///
/// The line's first fault, as `shift_at` says it, with the line's number: `UnknownLine`, `OutOfRange` (64
/// shifts before, no such group, a word that is too long, a price) or `BadNumber`. Nothing is said of the
/// room's word then, and all else in it is as before.
#[tactic(auto, unfolding(crate::specs::ShiftLines::shift_of))]
pub fn shift_line(
    instance: &Instance,
    room: &mut CertRoom,
    shifts: u32,
    line: &Line<'_>,
) -> Result<ShiftLine, PieceFault>
    requires { length instance.now.groups ≤ 8 }
    ensures value { MatchResult result
        (λ s. shift_at line.now.number instance.now shifts line.now.words ≡ Ok
        (record { group = s.group; word = room.new.word; price = s.price }))
        (λ e. shift_at line.now.number instance.now shifts line.now.words ≡ Err e) }
    ensures few { IfOk result (λ _. shifts < 64) }
    ensures kept { room.new ≡ record room.old { word = room.new.word } }
{
    let number = line.number();
    let Some(words) = shift_words(&mut line.words()) else {
        return Err(PieceFault::UnknownLine { line: number });
    };
    if MOST_SHIFTS <= shifts {
        return Err(PieceFault::OutOfRange { line: number });
    }
    let group = team(number, instance, words.group)?;
    letters(room, number, group, words.word, words.price)
}
