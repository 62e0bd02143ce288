//! An open leaf, and what is kept of it.

/// Where a node is to be split.
#[derive(Clone, Copy, Debug, PartialEq, Eq, Drop)]
pub struct Plan {
    /// The number of the arc in the graph.
    pub arc: u32,
    /// The number that the halves speak of, 0 to 63.
    pub b: u32,
}

/// What a search keeps of a leaf that waits.
#[derive(Clone, Copy, Debug, PartialEq, Eq, Drop)]
pub struct Kept {
    /// The number of the leaf's seat.
    pub seat: u32,
    /// Where the leaf is to be split; none where it is not processed yet, or need not be split.
    pub plan: Option<Plan>,
}

/// A leaf on which a search can go on.
#[derive(Clone, Copy, Debug, PartialEq, Eq, Drop)]
pub struct OpenLeaf {
    /// What the prices at the leaf and above it show.
    pub bound: u64,
    /// How many splits are above it.
    pub depth: u32,
    pub kept: Kept,
}
