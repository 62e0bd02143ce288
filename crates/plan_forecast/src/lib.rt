//! The forecast of a plan: a table that says how many employees of each code are needed, step by step.
//!
//! ```text
//! time;calls;calls least;e-mails
//! 8:00;2;1;0
//! 8:30;2;1;0
//! ```
//!
//! The first line is the word `time` and headings. A heading is a code of work with a need line, or what such
//! a code is called, and may end in `least` or `most`: how many must be there, and may be. Each need line has
//! a column of those that are needed. Each row has a time by the clock and a whole number from 0 to 64 under
//! each heading; rows go by steps of one length, whole periods, from the day's begin to its end, and one row
//! alone is the whole day.
#![tactic(auto)]

mod called;
mod columns;
mod fault;
mod heading;
mod laws;
mod line;
mod message;
mod read;
mod row;
mod table;
mod title;

pub use called::Way;
pub use fault::{ForecastFault, HeadingFault, RowFault};
pub use laws::forecasts_are_small;
pub use message::fault_line;
pub use read::read_forecast;
pub use table::{Asked, Kind, Table};
