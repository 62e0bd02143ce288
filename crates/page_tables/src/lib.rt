//! The tables and lists of a page: the shifts, how often each code is had and which share of its need is
//! covered, the shortages and the surplus, and how many begin and end at each time. What stands in them are
//! numbers and bytes of the texts, each byte escaped.
#![tactic(auto)]

mod heads;
mod laws;
mod line;
mod lists;
mod moments;
mod shifts;
mod tables;
mod totals;

pub use laws::marks_stay;
pub use line::{HeadLine, MomentLine, RunLine, ShiftLine, TotalLine};
pub use tables::{Tables, add_tables};
