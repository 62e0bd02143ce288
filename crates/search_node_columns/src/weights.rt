//! The weights of trees at a basic solution.

ghost use Rattle.std.specs.Prelude.{◌<◌, length, All, IfOk, IfSome, IfNone};
ghost use Rattle.lp_tableaus.specs.declared.simplex.Basic.{Basic as BasicColumn};
ghost use Rattle.search_node_columns.specs.Weights.{TellsLeftOut, TellsTaken, AreWeightsOf};

use crate::workspace::{Held, Kind};
use lp_fractions::Frac;
use lp_tableaus::Basic;
use model_rosters::{List, Memory};
use std::alloc::Global;

/// The weight of a tree of the pool.
#[derive(Clone, Copy, Debug, PartialEq, Eq, Drop)]
pub struct Weight {
    /// The number of the tree in the pool.
    pub column: usize,
    /// Its weight, above 0.
    pub x: Frac,
}

/// Returns the weight of a basic column where it is a tree's and above 0.
fn tree_weight(held: &[Held], basic: &Basic) -> Option<Weight>
    requires { basic.now.col < length held.now }
    ensures none { IfNone result (TellsLeftOut held.now basic.now) }
    ensures some { IfSome result (TellsTaken held.now basic.now) }
{
    let Kind::OfTree(tree) = held[basic.col].kind else {
        return None;
    };
    if basic.x.num() == 0 {
        return None;
    }
    Some(Weight {
        column: tree,
        x: basic.x,
    })
}

/// Returns the weights above 0 of trees among those of basic columns, in the order of these; `held` are the
/// columns that are listed.
///
/// # Errors
///
/// `Memory` where memory runs out; nothing is kept then.
pub fn tree_weights(alloc: Global, held: &[Held], basic: &[Basic]) -> Result<List<Weight>, Memory>
    requires { All (λ (b : BasicColumn). b.col < length held.now) basic.now }
    ensures { IfOk result (AreWeightsOf held.now basic.now) }
{
    let mut weights = List::new(alloc);
    for one in basic {
        if let Some(weight) = tree_weight(held, one) {
            weights.push(weight)?;
        }
    }
    Ok(weights)
}
