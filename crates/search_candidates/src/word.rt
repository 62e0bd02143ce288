//! The bytes of codes.

ghost use Rattle.std.specs.Prelude.{◌≡◌, ◌<◌, All, IfOk, length, map};
ghost use Rattle.model_rosters.specs.Coverage.{code_byte};

use model_rosters::{Grammar, List, Memory};
use std::alloc::Global;

/// Returns the bytes of codes.
///
/// # Errors
///
/// `Memory` where memory runs out; nothing is kept then.
pub fn word_of(alloc: Global, grammar: &Grammar, codes: &[u8]) -> Result<List<u8>, Memory>
    requires { All (λ c. c < length grammar.now.codes) codes.now }
    ensures { IfOk result (λ w. w ≡ map (code_byte grammar.now) codes.now) }
{
    let mut word = List::new(alloc);
    for &code in codes {
        word.push(grammar.codes.as_slice()[code as usize].byte)?;
    }
    Ok(word)
}
