//! A tree by its rule uses.

use model_rosters::{List, Step};

/// A tree of the day, by its rule uses in preorder.
#[derive(Debug, Drop)]
pub struct Tree {
    pub steps: List<Step>,
}
