//! A plan: one day in a planner's words, and what it means, without any grammar.
//!
//! A plan holds what a planner wrote: when the day begins and ends by the clock, what an hour of each code
//! costs, how long a block of it lasts, and the duty lines with their parts. Lengths are minutes, times are
//! minutes of the clock, and amounts are units, the last decimal of the money in which they are written. A
//! day's words have one letter for each of its periods; the definitions in `specs/` say which words are
//! shifts of a duty line and at which price, and which rosters are those of a plan and a forecast.
#![tactic(auto)]

mod forecast;
mod laws;
mod plan;

pub use forecast::{Column, Forecast};
pub use laws::{times_are_first, worked_shop, worked_times};
pub use plan::{
    Duty, Extra, Lengths, Money, Need, Part, Plan, PlanCode, PlanDay, Staff, Time, Times,
};
