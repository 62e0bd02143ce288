//! Numbers, amounts and names of groups.

ghost use Rattle.std.specs.Prelude.{◌≡◌, ◌+◌, ◌≤◌, ◌<◌, ◌^◌, length, unsigned_abs, IfOk, IfSome, position};
ghost use Rattle.text_proof_pieces.specs.Fields.{number_at, signed_at, amount_at, has_name, group_at};

use crate::fault::PieceFault;
use check_certificates::{MOST_COST, MOST_PRICE};
use model_rosters::{Group, List};
use text_lines::{NumberFault, read_number, read_within};

/// Reads a number from `low` to `high`.
///
/// # Errors
///
/// `BadNumber` where the word is no number, and `OutOfRange` where it is not in the range, with the line.
pub fn number(line: u32, low: u128, high: u128, word: &[u8]) -> Result<u128, PieceFault>
    ensures value { result ≡ number_at line low high word.now }
    ensures within { IfOk result (λ n. (low ≤ n) × (n ≤ high)) }
{
    let none = PieceFault::BadNumber { line };
    let outside = PieceFault::OutOfRange { line };
    read_within(low, high, none, outside, word)
}

/// Reads a number of at most `2^80` in size, which may be below 0.
///
/// # Errors
///
/// `BadNumber` where the word is no number, and `OutOfRange` where it is greater in size, with the line.
#[tactic(auto, unfolding(crate::specs::Fields::signed_at))]
pub fn signed(line: u32, word: &[u8]) -> Result<i128, PieceFault>
    ensures { result ≡ signed_at line word.now }
{
    match read_number(word) {
        Ok(z) if MOST_PRICE.unsigned_abs() < z.unsigned_abs() => Err(PieceFault::OutOfRange {
            line,
        }),
        Ok(z) => Ok(z),
        Err(NumberFault::Form) => Err(PieceFault::BadNumber { line }),
        Err(NumberFault::Wide) => Err(PieceFault::OutOfRange { line }),
    }
}

/// Reads a cost or a bound: a number, or `none`.
///
/// # Errors
///
/// `BadNumber` where the word is neither, and `OutOfRange` where the number is above `MOST_COST`, with the
/// line.
#[tactic(auto, unfolding(crate::specs::Fields::amount_at))]
pub fn amount(line: u32, word: &[u8]) -> Result<Option<u64>, PieceFault>
    ensures { result ≡ amount_at line word.now }
{
    if word == b"none".as_slice() {
        return Ok(None);
    }
    let value = number(line, 0, u128::from(MOST_COST), word)?;
    Ok(Some(value as u64))
}

// Says whether the name of a group is the word.
fn has_name(names: &[List<u8>], word: &[u8], group: &Group) -> bool
    ensures { result ≡ has_name names.now word.now group.now }
{
    match names.get(group.name as usize) {
        Some(name) => name.as_slice() == word,
        None => false,
    }
}

// Returns the place of the group whose name is the word, if there is one.
fn group_place(names: &[List<u8>], groups: &[Group], word: &[u8]) -> Option<usize>
    ensures place { result ≡ position (has_name names.now word.now) groups.now }
    ensures within { IfSome result (λ i. i < length groups.now) }
{
    groups.iter().position(|group| has_name(names, word, group))
}

/// Reads the name of a group, and gives the group's number, from 1.
///
/// # Errors
///
/// `OutOfRange` with the line, where no group has this name.
#[tactic(auto, unfolding(crate::specs::Fields::group_at))]
pub fn group(line: u32, names: &[List<u8>], groups: &[Group], word: &[u8]) -> Result<u8, PieceFault>
    requires { length groups.now ≤ 8 }
    ensures { result ≡ group_at line names.now groups.now word.now }
{
    match group_place(names, groups, word) {
        Some(place) => Ok(place as u8 + 1),
        None => Err(PieceFault::OutOfRange { line }),
    }
}
