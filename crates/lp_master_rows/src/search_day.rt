//! A day that is searched: its instance and the graph of its parses; and what it takes to price its trees.

mod day;
mod pricing;

pub use day::Day;
pub use pricing::Pricing;
