//! What is asked of a tree often.

ghost use Rattle.std.specs.Prelude.{IfOk};
ghost use Rattle.model_rosters.specs.Sound.{IsSound};
ghost use Rattle.model_rosters.specs.tree_laws.DaySteps.{AreDaySteps};
ghost use Rattle.tree_pool.specs.Entries.{TellFacts};

use crate::arcs::SortedArcs;
use crate::costs::cost_of;
use crate::letters::codes_of;
use model_rosters::{Grammar, List, Memory, Step};
use std::alloc::Global;

/// What is asked of a tree often.
#[derive(Drop)]
pub struct Facts {
    /// The codes of its letters by period.
    pub codes: List<u8>,
    pub arcs: SortedArcs,
    pub cost: u32,
}

/// Returns what is asked of a tree of the day.
///
/// # Errors
///
/// `Memory` where memory runs out; nothing is kept then.
pub fn facts_of(alloc: Global, grammar: &Grammar, steps: &[Step]) -> Result<Facts, Memory>
    requires sound { IsSound grammar.now }
    requires steps { AreDaySteps grammar.now steps.now }
    ensures { IfOk result (TellFacts grammar.now steps.now) }
{
    let codes = codes_of(alloc, grammar, steps)?;
    let arcs = SortedArcs::of(alloc, grammar, steps)?;
    let cost = cost_of(grammar, steps);
    Ok(Facts { codes, arcs, cost })
}
