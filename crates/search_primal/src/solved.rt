//! What comes of a node's master, and what is known of the node.

ghost use Rattle.std.specs.Prelude.{◌≡◌};
ghost use Rattle.search_primal.specs.Solutions.{outcome_of};

use model_rosters::{List, Prices};
use search_masters::{Cause, NodeEnd, Solution, Weight};

/// What is known of a node whose master was solved.
#[derive(Drop)]
pub struct Solved {
    /// Its prices, rounded.
    pub prices: Prices,
    /// The weights above 0 of the trees of a solution.
    pub weights: List<Weight>,
    /// How these weights are to be read.
    pub solution: Solution,
}

/// What comes of a node's master.
#[derive(Drop)]
pub enum Outcome {
    /// It was solved.
    Solved(Solved),
    /// It was given up.
    Failed(Cause),
    /// The watch stopped it; with prices that fit the node and need not be best, if there were any.
    Stopped(Option<Prices>),
}

/// Returns what comes of a master by its end.
pub fn outcome_of(end: NodeEnd) -> Outcome
    ensures { result ≡ outcome_of end }
{
    match end {
        NodeEnd::Best {
            prices,
            value: _,
            weights,
        } => Outcome::Solved(Solved {
            prices,
            weights,
            solution: Solution::Exact,
        }),
        NodeEnd::Near { prices, weights } => Outcome::Solved(Solved {
            prices,
            weights,
            solution: Solution::Near,
        }),
        NodeEnd::Failed(cause) => Outcome::Failed(cause),
        NodeEnd::Stopped(own) => Outcome::Stopped(own),
    }
}
