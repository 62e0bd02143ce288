//! The cheapest tree of a day on the graph of all its parses, by one pass over its nodes and arcs.
#![tactic(auto)]

mod extras;
mod fill_slots;
mod join;
mod least;
mod letters;
mod narrow;
mod number;
mod order;
mod pass_workspace;
mod pricer;
mod row_fill;
mod slots;
mod sums;
mod under;
mod walk;
mod wide;

pub use pricer::Pricer;
