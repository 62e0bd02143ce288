//! What a dive begins with.

use lp_float_programs::LastBasis;

/// How trees are asked for in a step of a dive.
#[derive(Clone, Copy, Drop)]
pub enum Asks {
    /// Seldom, and several trees each time, under different arcs of the root.
    Several,
    /// Often, and one tree each time. On days with many arcs this leads to better rosters.
    Single,
}

impl Asks {
    /// Returns how often trees are asked for in a step. With several at a time and five times nine days took
    /// 56 seconds in place of 41.
    pub(crate) fn rounds(self) -> u32 {
        match self {
            Asks::Several => 10,
            Asks::Single => 30,
        }
    }

    /// Returns the arcs of the root under which further trees are looked for, of these.
    pub(crate) fn further<'a>(self, arcs: &'a [u32]) -> &'a [u32] {
        match self {
            Asks::Several => arcs,
            Asks::Single => &[],
        }
    }
}

/// What a dive begins with, all of it hints.
#[derive(Clone, Copy, Drop)]
pub struct DiveStart<'a> {
    /// The basis with which the last column generation at the node ended.
    pub last: &'a LastBasis,
    /// Trees of the pool with which the dive begins where that basis says nothing: any numbers are lawful.
    pub wanted: &'a [usize],
    /// How trees are asked for.
    pub asks: Asks,
}
