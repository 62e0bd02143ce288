//! Cheap trees of a day over some of its arcs: those of rosters that cost less than the best one.
#![tactic(auto)]

mod best;
mod chain;
mod costs;
mod keeping;
mod pass;
mod short_order;
mod walk;

pub use short_order::ShortOrder;
