//! What a column generation works at, and when it ends.

use crate::asked::Asked;
use lp_float_programs::FloatProgram;
use search_node_columns::ColumnWorkspace;
use search_watch::{Watch, Work};

/// When a column generation ends.
#[derive(Clone, Copy, Debug, PartialEq, Eq, Drop)]
pub enum Ending {
    /// Where no tree is cheap; at many rows already where the value is within half the rounding loss of what
    /// the best prices show.
    Early,
    /// Where no tree is cheap.
    Whole,
    /// The same, at a float program that takes less for 0.
    Tight,
}

/// What a column generation for a good basis works at.
#[derive(Drop)]
pub(crate) struct Generation {
    /// The prices that it asks at.
    pub(crate) asked: Asked,
    /// The listed columns.
    pub(crate) workspace: ColumnWorkspace,
    /// A float program of these columns.
    pub(crate) float_program: FloatProgram,
}

impl Generation {
    /// Tells a watch how many trees the pool has, and what the best prices show.
    pub(crate) fn tell<W: Watch>(&self, trees: usize, watch: &W) {
        watch.tell(Work::Prices {
            trees: trees as u64,
            bound: self.asked.whole_bound(),
        });
    }
}
