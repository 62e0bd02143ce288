//! The duty lines of a plan by duty names, in numbers of periods.
#![tactic(auto)]

mod laws;
mod lines;

pub use laws::names_hold_all;
pub use lines::by_names;
