//! The day of the rows, and its rosters.

ghost use Rattle.std.specs.Prelude.{IfOk};
ghost use Rattle.model_rosters.specs.SoundInstance.{IsSoundInstance};

use model_rosters::{Instance, List, Memory, Shift};
use std::alloc::Global;
use std::test::Fail;
use text_demand::read_demand;
use text_rules::read_rules;

/// A day of four periods with a code of work and two that are none, and the name of a group.
const RULES: &str = "periods 4\nwork a\nidle . p\nstart S\nrule S 0 = 'a' 'p' 'a' '.'\n";

/// Returns the day of a demand text.
pub fn day(alloc: Global, demand: &str) -> Result<Instance, Fail>
    ensures { IfOk result IsSoundInstance }
{
    let grammar = read_rules(alloc, RULES.as_bytes())?;
    Ok(read_demand(alloc, grammar, demand.as_bytes())?)
}

/// The group and the word of a shift.
pub type ShiftParts<'a> = (u8, &'a str);

// A shift of a group with a word.
fn shift(alloc: Global, group: u8, word: &str) -> Result<Shift, Memory> {
    let mut letters = List::new(alloc);
    letters.extend_from_slice(word.as_bytes())?;
    Ok(Shift {
        group,
        word: letters,
        price: 0,
    })
}

/// Returns a roster of shifts.
pub fn roster(alloc: Global, parts: &[ShiftParts<'_>]) -> Result<List<Shift>, Memory> {
    let mut shifts = List::new(alloc);
    for (group, word) in parts {
        shifts.push(shift(alloc, *group, word)?)?;
    }
    Ok(shifts)
}
