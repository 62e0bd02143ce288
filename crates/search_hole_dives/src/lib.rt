//! Dives in a day's graph: what a roster lacks is solved nearly, by the volume algorithm in floats and by
//! fixing trees.
//!
//! How it goes: the volume algorithm moves the prices of the cells along what a mean of cheapest trees lacks,
//! and so finds prices that show a bound, and a mean whose arcs have a flow. A dive takes ten chunks of 30
//! passes; after each of them it is given up where its bound reaches the cost less 1, and the arcs whose
//! trees all cost too much go. Then the widest trees of the flow are fixed, with 100 passes between two
//! fixings, which end where the bound reaches the cost less 1. What is left is completed by cheapest trees,
//! and each new tree is exchanged once for a cheapest one. Where neither a cell nor a team lacks an employee
//! no further tree is fixed. A dive begins with a part of the graph, which may be narrowed before: then the
//! arcs are gone that by the node's prices no roster has which costs less. Work is counted in arcs and cells
//! passed over, so the same turns give the same shifts. A watch (`search_watch`) is asked between chunks and
//! between two fixings; where it is over, the dive is given up.
#![tactic(auto)]

mod cells;
mod dive;
mod exchanging;
mod flow;
mod growing;
mod narrowing;
mod volume;
mod widest;

pub use dive::{Dive, HoleEnd};
