//! A plan in numbers of periods and in units a period, made from a plan in a planner's words.
#![tactic(auto)]

mod duties;
mod numbers;
mod starts;
mod times;
mod whole_plan;

pub use duties::{period_activities, period_duty};
pub use whole_plan::period_plan;
