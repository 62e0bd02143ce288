//! A word of a line.

ghost use Rattle.std.specs.Prelude.{◌≡◌, ◌<◌, ◌≤◌, length, position, IfSome};
ghost use Rattle.text_proof_pieces.specs.Fields.{has_name};
ghost use Rattle.check_values.specs.stated_rosters.Fields.{group_at, is_number};

use crate::stated_rosters::fault::RosterFault;
use model_rosters::{Group, List};
use text_lines::{NumberFault, read_natural};

/// Whether a word is a number without a sign, of whatever size.
#[tactic(auto, unfolding(crate::specs::stated_rosters::Fields::is_number))]
pub fn is_number(word: &[u8]) -> bool
    ensures { result ≡ is_number word.now }
{
    match read_natural(word) {
        Ok(_) => true,
        Err(NumberFault::Wide) => true,
        Err(NumberFault::Form) => false,
    }
}

// Tells whether a group's name is the word.
fn has_name(names: &[List<u8>], word: &[u8], group: &Group) -> bool
    ensures { result ≡ has_name names.now word.now group.now }
{
    match names.get(group.name as usize) {
        Some(name) => name.as_slice() == word,
        None => false,
    }
}

// Returns the place of the first group whose name is the word.
fn group_place(names: &[List<u8>], groups: &[Group], word: &[u8]) -> Option<usize>
    ensures place { result ≡ position (has_name names.now word.now) groups.now }
    ensures within { IfSome result (λ i. i < length groups.now) }
{
    groups.iter().position(|group| has_name(names, word, group))
}

/// Reads the name of a group, and gives the group's number, from 1.
///
/// # Errors
///
/// The fault of the word: a name that is no group's, or a number that is none or out of range, at this line.
#[tactic(auto, unfolding(crate::specs::stated_rosters::Fields::group_at))]
pub fn group(
    line: u32,
    names: &[List<u8>],
    groups: &[Group],
    word: &[u8],
) -> Result<u8, RosterFault>
    requires { length groups.now ≤ 8 }
    ensures { result ≡ group_at line names.now groups.now word.now }
{
    match group_place(names, groups, word) {
        Some(place) => Ok(place as u8 + 1),
        None => Err(RosterFault::NoName { line }),
    }
}
