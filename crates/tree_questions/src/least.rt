//! The least sum of the day's trees, by the plain table.

ghost use Rattle.std.specs.Prelude.{IfOk};
ghost use Rattle.model_rosters.specs.Sound.{IsSound};
ghost use Rattle.model_rosters.specs.Sums.{IsLeast, tree_sum};
ghost use Rattle.model_rosters.specs.Trees.{IsDayTree};

use model_rosters::{Grammar, LetterPrice, Memory};
use std::alloc::Global;
use tree_span_table::Table;

/// Returns the least sum over all trees of the day under the prices; `None` where no tree has a sum.
///
/// # Errors
///
/// `Memory` where memory runs out; nothing is kept then.
pub fn least_sum<P: LetterPrice>(
    alloc: Global,
    grammar: &Grammar,
    prices: &P,
) -> Result<Option<i128>, Memory>
    requires { IsSound grammar.now }
    ensures { IfOk result (IsLeast (IsDayTree grammar.now) (tree_sum (P.view prices.now) 1)) }
{
    let mut table = Table::for_instance(alloc, grammar)?;
    Ok(table.least(grammar, prices))
}
