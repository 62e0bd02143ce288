//! A symbol of a right side.

ghost use Rattle.std.specs.Prelude.{◌≡◌, ◌<◌, ◌≤◌, ◌==◌, length, IfSome, position, slice_index};
ghost use Rattle.text_rules.specs.RuleLine.{is_quoted, code_at, symbol_at};
ghost use Rattle.text_rules.specs.Steps.{Reads};

use crate::fault::{Limit, RulesFault};
use crate::names::Names;
use crate::place::Place;
use model_rosters::{CodeDef, List, Sym, is_code_byte};
use std::alloc::Global;

// Says whether a word is a byte for a code between quotes.
fn is_quoted(word: &[u8]) -> bool
    ensures { result ≡ is_quoted word.now }
{
    word.len() == 3 && is_code_byte(word[1]) && word[2] == b'\''
}

// Returns the place of the code with this byte, if there is one.
fn place_of(codes: &[CodeDef], byte: u8) -> Option<usize>
    ensures place { result ≡ position (λ d. d.byte == byte) codes.now }
    ensures within { IfSome result (λ i. i < length codes.now) }
{
    codes.iter().position(|def| def.byte == byte)
}

/// The number of a code that was declared.
///
/// # Errors
///
/// `UnknownCode` with the line, where no code has this byte.
pub fn code(line: u32, codes: &[CodeDef], byte: u8) -> Result<Sym, RulesFault>
    requires { length codes.now ≤ 32 }
    ensures { result ≡ code_at line codes.now byte }
{
    match place_of(codes, byte) {
        Some(place) => Ok(Sym::Code(place as u8)),
        None => Err(RulesFault::UnknownCode { line }),
    }
}

/// Reads a symbol, and adds it to the right side.
///
/// # Errors
///
/// `TooMany` where the right side has 8 symbols already, `BadName` where the word is neither a quoted code
/// nor a name, `UnknownCode`, or `TooMany` past 32 names, each with the line. `Memory` may come at any time.
/// Nothing is said of the names and of the right side then.
#[tactic(auto, unfolding(crate::specs::RuleLine::symbol_at))]
pub fn symbol(
    alloc: Global,
    codes: &[CodeDef],
    names: &mut Names,
    right: &mut List<Sym>,
    line: u32,
    word: &[u8],
) -> Result<(), RulesFault>
    requires { length codes.now ≤ 32 }
    ensures value { Reads (λ _. (names.new, right.new)) result
        (symbol_at line codes.now (names.old, right.old) word.now) }
{
    if 8 <= right.len() {
        return Err(RulesFault::TooMany {
            line,
            what: Limit::Right,
            most: 8,
        });
    }
    let symbol = if let [b'\'', ..] = word {
        if !is_quoted(word) {
            return Err(RulesFault::BadName { line });
        }
        code(line, codes, word[1])?
    } else {
        let at = Place {
            line,
            word: 5 + right.len() as u32,
        };
        Sym::Name(names.read(alloc, at, word)?)
    };
    right.push(symbol)?;
    Ok(())
}
