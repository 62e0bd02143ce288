//! Counts of a graph's arcs as a list of the day's trees that have them.

mod balance;
mod fault;
mod laws;
mod take;
mod trees;

pub use fault::SplitFault;
pub use laws::split_balanced;
pub use trees::split;
