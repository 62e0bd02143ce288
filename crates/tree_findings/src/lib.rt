//! What is odd about the rules and the demand of a day: what no shift uses, windows beyond the day, rules
//! that stand twice, groups and start rules that do not fit, and needs that no shift can meet.
#![tactic(auto)]

mod demand;
mod finding;
mod groups;
mod idle;
mod letters;
mod listed;
mod marks;
mod rules;
mod same;
mod shifts;
mod used;

pub use demand::demand_findings;
pub use finding::{Finding, WindowKind};
pub use idle::use_findings;
pub use rules::rule_findings;
pub use shifts::Shifts;
pub use used::Used;
