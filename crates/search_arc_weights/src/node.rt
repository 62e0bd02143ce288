//! A node that is solved.

use lp_master_rows::Day;
use model_rosters::Cut;
use search_arc_counts::ArcBox;
use search_masters::{Pool, Solution, Weight};

/// A node that is solved: its day, its cuts with the counts that they leave the arcs, and the weights of the
/// pool's trees at its solution, which says how they are to be read.
#[derive(Clone, Copy, Drop)]
pub struct SolvedNode<'a> {
    pub day: Day<'a>,
    pub cuts: &'a [Cut],
    pub arc_box: &'a ArcBox,
    pub pool: &'a Pool,
    pub weights: &'a [Weight],
    pub solution: Solution,
}
