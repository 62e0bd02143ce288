//! The node of a search whose master is solved, as one value.

use crate::NodeRows;
use crate::search_day::Day;
use model_rosters::Cut;

/// A node whose master is solved: its day, the cuts on the way to it, and the rows of the master, 1,500 at
/// most.
#[derive(Clone, Copy, Drop)]
pub struct NodeTask<'a> {
    pub day: Day<'a>,
    pub cuts: &'a [Cut],
    pub rows: &'a NodeRows,
}
