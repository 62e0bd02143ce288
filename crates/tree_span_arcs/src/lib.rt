//! What derives on which spans, and the arcs of an instance, told one by one and in their order.
#![tactic(auto)]

mod arcs;
mod day_arcs;
mod derive;
mod derived;
mod free;
mod free_cells;
mod marks;
mod runs;

pub use day_arcs::DayArcs;
pub use runs::Run;
