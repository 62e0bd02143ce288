//! The ends that a node's master may have.

use lp_fractions::{Frac, TooWide};
use model_rosters::{List, Prices};
use search_node_columns::Weight;

/// Why a master was given up.
#[derive(Clone, Copy, Debug, PartialEq, Eq, Drop)]
pub enum Cause {
    /// It has more than 1,500 rows.
    Rows { count: u32 },
    /// A number left the range.
    Wide(TooWide),
    /// All pivots of a node were made.
    Spent { pivots: u32 },
}

/// How the weights of a node's trees are to be read.
#[derive(Clone, Copy, Debug, PartialEq, Eq, Drop)]
pub enum Solution {
    /// They are those of a basic solution of least cost.
    Exact,
    /// They show the node's prices to be best, in units of 2^-56.
    Near,
}

/// How the master of a node ended.
#[derive(Drop)]
pub enum NodeEnd {
    /// It was solved exactly.
    Best {
        /// Its prices, rounded.
        prices: Prices,
        /// Its value.
        value: Frac,
        /// The weights above 0 of trees.
        weights: List<Weight>,
    },
    /// Its prices were shown to be best by a solution that need not be basic, nor of least cost.
    Near {
        /// Its prices, rounded.
        prices: Prices,
        /// The weights above 0 of the trees of that solution, in units of 2^-56.
        weights: List<Weight>,
    },
    /// It was given up.
    Failed(Cause),
    /// What watches the search stopped it, before its prices were shown to be best. Where a column generation
    /// had asked at prices, the best ones of these, rounded: they fit the node, and need not be best.
    Stopped(Option<Prices>),
}
