//! What a roster costs that anybody wrote, or why it is not allowed.
//!
//! A stated roster is a list of shifts without prices. It is allowed where each word is a shift of its team,
//! each team has as many shifts as it may, and the coverage of each cell is within its floor and ceiling.
//! [`judge`] gives the roster at its prices, or all causes for which it is not allowed; [`stated_answer`]
//! gives the text of either, with how each demanded code is covered.
//!
//! `stated_rosters` reads such a roster's text, `remaining_day` has the day that remains beside kept shifts,
//! and `group_rules` the rules of a day with groups, by which that day is written.
//!
//! The table is filled once for each word of a team, however often and wherever it stands.
#![tactic(auto)]

mod answer;
mod cause;
mod cause_text;
mod causes;
mod covered;
mod found;
pub mod group_rules;
mod judging;
mod laws;
pub mod remaining_day;
mod stated_rosters;
mod value_text;
mod valued;

pub use answer::{Answer, stated_answer};
pub use cause::Cause;
pub use cause_text::cause_lines;
pub use causes::causes_of;
pub use found::found_of;
pub use group_rules::{plain_grammar, plain_of_extended, same_prices};
pub use judging::{Judged, judge};
pub use laws::{answers_once, costs_in_any_order};
pub use remaining_day::{
    Remaining, Rest, causes_forbid, remaining, rest_is_read, rest_is_right, rest_status,
    write_remaining,
};
pub use stated_rosters::{RosterFault, begins_report, fault_line, read_roster, refused_line};
pub use valued::Valued;
