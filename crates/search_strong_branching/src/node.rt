//! A node whose splits are tried.

use crate::shares::Share;
use lp_float_programs::LastBasis;
use lp_master_rows::Day;
use model_rosters::Cut;
use search_arc_counts::ArcBox;
use tree_pool::Pool;

/// A node whose splits are tried: its day, its cuts with the counts that they leave the arcs, the weights of
/// the pool's trees at its solution, and the basis with which the last column generation there ended, a hint.
#[derive(Clone, Copy, Drop)]
pub struct SplitNode<'a> {
    pub day: Day<'a>,
    pub cuts: &'a [Cut],
    pub arc_box: &'a ArcBox,
    pub pool: &'a Pool,
    pub shares: &'a [Share],
    pub last: &'a LastBasis,
}
