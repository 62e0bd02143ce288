//! A node that leaves some arc more than one count.

use crate::job::SearchedDay;
use model_rosters::Cut;
use search_arc_counts::ArcBox;

/// A node that leaves some arc more than one count.
#[derive(Clone, Copy, Drop)]
pub struct OpenNode<'a> {
    /// The day that is searched.
    pub searched: SearchedDay<'a>,
    /// The cuts on the way to it, base cuts first.
    pub cuts: &'a [Cut],
    /// The counts that the cuts leave the arcs.
    pub arc_box: &'a ArcBox,
    /// The number of an arc that is left more than one.
    pub loose: u32,
}
