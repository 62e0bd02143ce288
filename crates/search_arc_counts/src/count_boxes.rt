//! Boxes of counts: the bounds that the cuts of a path leave the counts of an instance's arcs, kept
//! by the numbers that the arcs have in the graph, and what the counts of a pinned box cost.

mod arc_box;
mod bounds;
mod cost;
mod laws;

pub use arc_box::ArcBox;
pub use bounds::Bounds;
pub use laws::cuts_elsewhere;
