//! The order of the names.

ghost use Rattle.std.specs.Prelude.{ℕ, ◌≡◌, ◌<◌, ◌≤◌, [], length, slice_index, IfOk, OnOk};
ghost use Rattle.model_rosters.specs.Sound.{IsSound};
ghost use Rattle.tree_pool.specs.grammar_core.Items.{IsOrder};
ghost use Rattle.model_rosters.specs.tree_laws.RankOrder.{IsPlaced, IsDone};
ghost use Rattle.tree_pool.specs.grammar_core.Adding.{AreOrdered};

use model_rosters::{Grammar, List, Memory, unit_ranks};
use std::alloc::Global;

// Adds the names of a rank, of so many names.
fn add_rank(order: &mut List<u8>, ranks: &[u8], names: usize, rank: u8) -> Result<(), Memory>
    requires few { names ≤ 33 }
    requires ranks { length ranks.now ≡ 33 }
    ensures { OnOk result (AreOrdered ranks.now names (IsPlaced ranks.now rank 0) order.old
        → AreOrdered ranks.now names (IsPlaced ranks.now rank names) order.new) }
{
    for name in 0..names {
        if ranks[name] == rank {
            order.push(name as u8)?;
        }
    }
    Ok(())
}

// Adds the names, from the highest rank to the lowest.
fn add_ranks(order: &mut List<u8>, ranks: &[u8], names: usize) -> Result<(), Memory>
    requires few { names ≤ 33 }
    requires ranks { length ranks.now ≡ 33 }
    requires below { (x : ℕ) → x < names → slice_index ranks.now x < names }
    requires empty { order.old ≡ [] }
    ensures { OnOk result (AreOrdered ranks.now names (IsDone ranks.now names names) order.new) }
{
    for turn in 0..names {
        let rank = (names - 1 - turn) as u8;
        add_rank(order, ranks, names, rank)?;
    }
    Ok(())
}

/// Returns the names in an order in which the right name of a one-symbol rule stands before its
/// left name.
///
/// # Errors
///
/// `Memory` where memory runs out; nothing is kept then.
pub fn order_of(alloc: Global, grammar: &Grammar) -> Result<List<u8>, Memory>
    requires { IsSound grammar.now }
    ensures { IfOk result (IsOrder grammar.now) }
{
    let Ok(ranks) = unit_ranks(grammar) else {
        unreachable!();
    };
    let mut order = List::new(alloc);
    add_ranks(&mut order, &ranks, grammar.names.len())?;
    Ok(order)
}
