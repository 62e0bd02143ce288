//! The entry of a tree.

ghost use Rattle.std.specs.Prelude.{◌≡◌, IfOk};
ghost use Rattle.model_rosters.specs.Sound.{IsSound};
ghost use Rattle.tree_pool.specs.Entries.{TellFacts};
ghost use Rattle.model_rosters.specs.tree_laws.DaySteps.{AreDaySteps};

use crate::facts::{Facts, facts_of};
use crate::tree::Tree;
use model_rosters::{Grammar, List, Memory, Step};
use std::alloc::Global;

/// A tree of the pool, with what is asked of it often.
#[derive(Drop)]
pub struct Entry {
    pub tree: Tree,
    pub facts: Facts,
}

/// Returns the entry of a tree of the day.
///
/// # Errors
///
/// `Memory` where memory runs out; nothing is kept then.
pub fn entry_of(alloc: Global, grammar: &Grammar, steps: &[Step]) -> Result<Entry, Memory>
    requires sound { IsSound grammar.now }
    requires steps { AreDaySteps grammar.now steps.now }
    ensures tree { IfOk result (λ e. e.tree.steps ≡ steps.now) }
    ensures facts { IfOk result (λ e. TellFacts grammar.now steps.now e.facts) }
{
    let tree = tree_of(alloc, steps)?;
    match facts_of(alloc, grammar, steps) {
        Ok(facts) => Ok(Entry { tree, facts }),
        Err(Memory) => Err(Memory),
    }
}

// Returns the tree of some steps.
fn tree_of(alloc: Global, steps: &[Step]) -> Result<Tree, Memory>
    ensures { IfOk result (λ t. t.steps ≡ steps.now) }
{
    let mut list = List::new(alloc);
    list.extend_from_slice(steps)?;
    Ok(Tree { steps: list })
}
