//! The way from the root of a search to a node: the cuts, and the counts that they leave the arcs.
//!
//! On its way to a node the path undoes its turns down to the base cuts, climbs from the node to the root by
//! the seats, turns the cuts round and makes them one after another. A base cut on what is no arc of the
//! graph changes no box.

mod base;
mod climb;
mod path;
mod turn;
mod turns;

pub use path::NodePath;
