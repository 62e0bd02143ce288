//! Work codes and names of the rules.

ghost use Rattle.std.specs.Prelude.{◌≡◌, ◌<◌, ◌≤◌, ◌==◌, ◌&&◌, length, IfSome, position};
ghost use Rattle.std.specs.Str.{bytes_eq};
ghost use Rattle.text_demand_lines.specs.Fields.{work_at, name_at};

use crate::fault::DemandFault;
use model_rosters::{CodeDef, List};

// Returns the place of the work code with this byte, if there is one.
fn place_of(codes: &[CodeDef], byte: u8) -> Option<usize>
    ensures place { result ≡ position (λ d. d.work && d.byte == byte) codes.now }
    ensures within { IfSome result (λ i. i < length codes.now) }
{
    codes.iter().position(|def| def.work && def.byte == byte)
}

/// Reads a work code, and gives its number, which is its position in `codes`.
///
/// # Errors
///
/// `NotWork` with the line, where the word is none of these.
#[tactic(auto, unfolding(crate::specs::Fields::work_at))]
pub fn work(line: u32, codes: &[CodeDef], word: &[u8]) -> Result<u8, DemandFault>
    requires { length codes.now ≤ 32 }
    ensures { result ≡ work_at line codes.now word.now }
{
    if word.len() != 1 {
        return Err(DemandFault::NotWork { line });
    }
    match place_of(codes, word[0]) {
        Some(place) => Ok(place as u8),
        None => Err(DemandFault::NotWork { line }),
    }
}

// Says whether a name is the word.
fn is_same(name: &List<u8>, word: &[u8]) -> bool
    ensures { result ≡ bytes_eq name.now word.now }
{
    name.as_slice() == word
}

// Returns the place of the name that is the word, if there is one.
fn name_place(names: &[List<u8>], word: &[u8]) -> Option<usize>
    ensures place { result ≡ position (λ n. bytes_eq n word.now) names.now }
    ensures within { IfSome result (λ i. i < length names.now) }
{
    names.iter().position(|name| is_same(name, word))
}

/// Reads a name of the rules, and gives its number.
///
/// # Errors
///
/// `NoName` with the line, where no name is the word.
#[tactic(auto, unfolding(crate::specs::Fields::name_at))]
pub fn name(line: u32, names: &[List<u8>], word: &[u8]) -> Result<u8, DemandFault>
    requires { length names.now ≤ 32 }
    ensures { result ≡ name_at line names.now word.now }
{
    match name_place(names, word) {
        Some(place) => Ok(place as u8),
        None => Err(DemandFault::NoName { line }),
    }
}
