//! Old certificates on days whose demand has changed, and what a program says of them.
//!
//! The tree of nodes of a certificate bounds the cost of rosters by its prices and splits, whatever day
//! it was found for. Judged alone for another day, it shows a bound there, or fails at a node.
//!
//! How it goes: `reuse` asks the checker for its verdict on the nodes with no roster and the bound none.
//! Where nothing is wrong with the nodes, that is a yes, or the refusal that tells what they show. That all
//! pinned leaves are pinned then follows from the verdict alone, since of the arcs that a leaf leaves more
//! than one count one would be the first (`proofs/TightLeaves`).
#![tactic(auto)]

mod laws;
mod nodes;
mod reused;

pub use check_certificates::Why;
pub use laws::one_reuse;
pub use nodes::{Reused, reuse};
pub use reused::write_reused;
