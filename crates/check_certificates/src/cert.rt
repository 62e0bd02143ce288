//! Certificates and their nodes.

use model_rosters::{ArcKey, List, Prices, Shift};

/// A node of a certificate's tree. Each cut on the way to a node bounds how many of a roster's
/// trees have one arc.
#[derive(Debug, PartialEq, Eq, Drop)]
pub enum Node {
    /// A split of all rosters at the node: those of which at most `b` trees have the arc, and those
    /// of which at least `b + 1` trees have it.
    Split {
        arc: ArcKey,
        /// 0 to 63.
        b: u32,
        /// Prices that bound the cost before the split, for the cuts on the way to the node. The
        /// split's own arc is none of them.
        prices: Option<Prices>,
    },
    /// A leaf with prices that bound the cost.
    Priced {
        prices: Prices,
    },
    /// A leaf whose cuts leave each arc one count.
    Pinned,
    /// A leaf that shows nothing.
    Bare,
}

/// A roster with its cost, a bound on the cost of every allowed roster, and the tree of nodes that
/// shows the bound.
#[derive(Debug, PartialEq, Eq, Drop)]
pub struct Cert {
    /// The shifts of the roster, at most 64; none where there is no roster.
    pub shifts: List<Shift>,
    /// What the roster costs, or none where there is no roster.
    pub cost: Option<u64>,
    /// The bound; none says that no roster is allowed.
    pub bound: Option<u64>,
    /// The nodes in preorder, the half of few trees before the half of many.
    pub nodes: List<Node>,
}
