//! Trees, added to the pool by their numbers.

ghost use Rattle.std.specs.Prelude.{◌≡◌, ◌<◌, All, IfOk, length, map, List as Items};
ghost use Rattle.model_rosters.specs.Folds.{Each};
ghost use Rattle.model_rosters.specs.Sound.{IsSound};
ghost use Rattle.model_rosters.specs.Trees.{Parts, IsDayTree, steps};
ghost use Rattle.tree_pool.specs.Pools.{IsPool, IsGrown};
ghost use Rattle.search_candidates.specs.Rosters.{AreTreesAt};

use model_rosters::{Grammar, List, Memory, Step};
use std::alloc::Global;
use tree_pool::Pool;

/// Adds trees of the day to the pool, where they are not there, and returns their numbers in order.
///
/// # Errors
///
/// `Memory` where memory runs out; the pool has its trees under their numbers then, and perhaps further trees
/// of the day.
pub fn columns_of(
    alloc: Global,
    grammar: &Grammar,
    trees: &[List<Step>],
    pool: &mut Pool,
) -> Result<List<usize>, Memory>
    requires sound { IsSound grammar.now }
    requires pool { IsPool grammar.now pool.old }
    requires trees { (ts : Items Parts) × Each (IsDayTree grammar.now) ts × (trees.now ≡ map (steps 1) ts) }
    ensures pool { IsPool grammar.now pool.new }
    ensures grown { IsGrown pool.old pool.new }
    ensures within { IfOk result (λ columns. All (λ c. c < length pool.new) columns) }
    ensures trees { IfOk result (λ columns. (ts : Items Parts) → Each (IsDayTree grammar.now) ts
        → trees.now ≡ map (steps 1) ts → AreTreesAt grammar.now pool.new columns ts) }
{
    let mut columns = List::new(alloc);
    for tree in trees {
        let column = pool.add(grammar, tree.as_slice())?;
        columns.push(column)?;
    }
    Ok(columns)
}
