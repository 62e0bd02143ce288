//! What shows a roster under labels: its page, its table, the table of how it covers each cell, and its
//! calendar.
#![tactic(auto)]

mod compare;
mod derived;
mod draw;
mod instead;
mod kind;
mod roster;
mod rows;
mod sums;

pub use compare::Comparison;
pub use draw::shown;
pub use instead::line_instead;
pub use kind::{CalendarDay, DayEvents, FirstWord, Kind, first_word, kind_for};
pub use roster::{ShownRoster, certified, stated};
pub use rows::copied;
pub use sums::{Sums, sums_of};
