//! Words in faults.

ghost use Rattle.std.specs.Prelude.{◌≡◌, ◌≢◌, IfOk};
ghost use Rattle.plan_faults.specs.declared.fault.LineFault.TheVariants.{Memory as out_of_memory, Pair, Word};

use model_rosters::{List, Memory};
use plan_faults::{LineFault, PairFault};
use plan_words::WordFault;
use std::alloc::Global;
use text_lines::put;

/// Makes a list of the bytes of a word.
///
/// # Errors
///
/// `Memory` where memory runs out.
pub fn copy(alloc: Global, word: &[u8]) -> Result<List<u8>, Memory>
    ensures { IfOk result (λ list. list ≡ word.now) }
{
    let mut list = List::new(alloc);
    put(&mut list, word)?;
    Ok(list)
}

/// Returns the fault of a word that says nothing, or too much; want of memory where the word cannot be held.
pub fn refused(alloc: Global, word: &[u8], fault: WordFault) -> LineFault
    ensures { result ≢ out_of_memory → result ≡ Word word.now fault }
{
    match copy(alloc, word) {
        Ok(word) => LineFault::Word { word, fault },
        Err(Memory) => LineFault::Memory,
    }
}

// Returns the two words of a pair as lists.
fn copies(alloc: Global, first: &[u8], second: &[u8]) -> Result<(List<u8>, List<u8>), Memory>
    ensures { IfOk result (λ lists. lists ≡ (first.now, second.now)) }
{
    let first = copy(alloc, first)?;
    let second = copy(alloc, second)?;
    Ok((first, second))
}

/// Returns the fault of two words of which the first is above the second; want of memory where they cannot be
/// held.
pub fn refused_pair(alloc: Global, first: &[u8], second: &[u8], fault: PairFault) -> LineFault
    ensures { result ≢ out_of_memory → result ≡ Pair first.now second.now fault }
{
    match copies(alloc, first, second) {
        Ok((first, second)) => LineFault::Pair {
            first,
            second,
            fault,
        },
        Err(Memory) => LineFault::Memory,
    }
}
