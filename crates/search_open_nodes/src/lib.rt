//! The open leaves of a search, that of the least bound first.
//!
//! A heap of std has an entry for each leaf, ordered by bound, depth and seat, and what else is kept of the
//! leaf stands in a slab under the entry's key (`specs/Held`), so it is not moved while the heap is put in
//! order.
#![tactic(auto)]

mod entry;
mod leaf;
mod queue;

pub use leaf::{Kept, OpenLeaf, Plan};
pub use queue::OpenNodes;
