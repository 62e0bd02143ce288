//! A number for each period.

ghost use Rattle.std.specs.Prelude.{◌≡◌, []};
ghost use Rattle.text_demand_lines.specs.Steps.{Reads, each};
ghost use Rattle.text_demand.specs.Counts.{count_at, counts_at};

use model_rosters::List;
use std::alloc::Global;
use text_demand_lines::{DemandFault, number};
use text_lines::{Words, words_left};

// Reads a number from 0 to 64 of each word.
fn numbers(alloc: Global, line: u32, words: &mut Words<'_>) -> Result<List<u32>, DemandFault>
    ensures { Reads (λ counts. counts) result (each (count_at line) [] words.old) }
{
    let mut counts = List::new(alloc);
    while let Some(word) = words.next() {
        let count = number(line, 0, 64, word)?;
        counts.push(count)?;
    }
    Ok(counts)
}

/// Reads a number from 0 to 64 for each period.
///
/// # Errors
///
/// `WrongCount` where the words are not as many as the periods, else `BadNumber` or `OutOfRange` of the first
/// word that is none, each with the line. `Memory` may come at any time.
#[tactic(auto, unfolding(crate::specs::Counts::counts_at))]
pub fn counts(
    alloc: Global,
    line: u32,
    periods: u8,
    words: &mut Words<'_>,
) -> Result<List<u32>, DemandFault>
    ensures { Reads (λ counts. counts) result (counts_at line periods words.old) }
{
    let mut again = words.again();
    let found = words_left(&mut again);
    if found != periods as usize {
        let found = found.min(u32::MAX as usize) as u32;
        return Err(DemandFault::WrongCount { line, found });
    }
    numbers(alloc, line, words)
}
