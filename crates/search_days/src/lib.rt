//! A sound day, solved: its graph is built, a search finds a roster and a bound, and the text of its
//! certificate is written. So is the curve of a day's least costs over the number of its employees.
#![tactic(auto)]

pub mod day_curve;
mod report;
mod solution;
mod solve;
mod text;

pub use day_curve::{
    Curve, CurvePoint, DayCurve, Staff, allowed_with_more, costs_fall, offered_costs_fall,
    staff_of, write_curve,
};
pub use report::solution_report;
pub use solution::Solution;
pub use solve::{graph_of, solve_day, solve_day_from, with_text};
