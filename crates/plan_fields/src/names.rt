//! Names of several words.

ghost use Rattle.std.specs.Prelude.{◌≡◌, IfOk};
ghost use Rattle.plan_fields.specs.Names.{checked, joined, name_at};
ghost use Rattle.plan_fields.specs.Steps.{Reads};

use crate::quote::copy;
use model_rosters::{List, Memory};
use plan_faults::LineFault;
use std::alloc::Global;
use text_lines::{Words, put, word};

/// Takes all words, with one space between them.
///
/// # Errors
///
/// `Memory` where memory runs out.
pub fn joined(alloc: Global, words: &mut Words<'_>) -> Result<List<u8>, Memory>
    ensures { IfOk result (λ text. text ≡ joined words.old) }
{
    let mut out = List::new(alloc);
    let Some(first) = words.next() else {
        return Ok(out);
    };
    put(&mut out, first)?;
    while let Some(next) = words.next() {
        word(&mut out, next)?;
    }
    Ok(out)
}

// Gives back a name that has 1 to so many bytes.
#[tactic(auto, unfolding(crate::specs::Names::checked))]
fn checked(most: usize, text: List<u8>) -> Result<List<u8>, LineFault>
    ensures { result ≡ checked most text }
{
    let found = text.len();
    if found == 0 || most < found {
        return Err(LineFault::Bytes {
            found: found as u64,
            most: most as u64,
        });
    }
    Ok(text)
}

/// Takes all words that are left in a line as a name of 1 to `most` bytes.
///
/// # Errors
///
/// `Bytes` where the name is longer; `Memory` where memory runs out.
pub fn name_of(alloc: Global, most: usize, words: &mut Words<'_>) -> Result<List<u8>, LineFault>
    ensures { Reads (λ t. t) result (name_at most words.old) }
{
    let text = joined(alloc, words)?;
    checked(most, text)
}

/// Takes one word as a name of 1 to `most` bytes.
///
/// # Errors
///
/// `Bytes` where the name is longer; `Memory` where memory runs out.
pub fn short_name(alloc: Global, most: usize, word: &[u8]) -> Result<List<u8>, LineFault>
    ensures { Reads (λ t. t) result (checked most word.now) }
{
    let name = copy(alloc, word)?;
    checked(most, name)
}
