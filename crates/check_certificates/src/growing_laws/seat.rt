//! A node of the tree of a search.

use crate::Node;
use model_rosters::Cut;

/// A node of the tree of a search.
#[derive(Debug, Drop)]
pub struct Seat {
    pub node: Node,
    /// What the node or its own prices show; 0 where it is bare.
    pub value: u64,
    /// The number of a split's Low half; that of its High half follows.
    pub low: u32,
    /// The greatest value that prices above the node show.
    pub above: u64,
    /// The number of the split above the node.
    pub parent: u32,
    /// The cut by which the node is a half of that split.
    pub cut: Cut,
}
