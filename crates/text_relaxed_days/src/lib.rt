//! Days that tell how far a day is from having a roster: its rules cost nothing, and its floors, or its
//! ceilings, are counted in place of being strict.
#![tactic(auto)]

mod day;
mod kind;
mod laws;
mod rules;
mod text;

pub use day::relaxed_demand;
pub use kind::Kind;
pub use laws::{relaxed_days_tell, shifts_are_free, shifts_have_prices};
pub use rules::free_rules;
pub use text::{write_free_rules, write_relaxed_demand};
