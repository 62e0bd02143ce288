//! The report of a roster: what a search found, what it costs, and how each code is covered.
//!
//! ```text
//! report 1
//! result optimal
//! cost 10
//! bound 10
//! processed 1
//! failed 0
//! shifts 2
//! shift .aaa 5
//! shift aaa. 5
//! paid 10
//! penalty 0
//! need a 1 2 2 1
//! have a 1 2 2 1
//! short a 0 0 0 0
//! over a 0 0 0 0
//! ```
//!
//! The first line is `report 2` where the day has groups of employees, and a shift line then names
//! the group before the word. Without a cost the lines end with `failed`. For each demanded code four
//! lines say, period by period, how many employees are needed, how many work, how many are missing,
//! and how many there are beyond the need.
#![tactic(auto)]

mod cover;
mod cover_text;
mod fault;
mod laws;
mod next;
mod part;
mod read;
mod report;
mod said;
mod shifts;
mod summary;
mod write;

pub use cover::{Cover, add_covers};
pub use cover_text::cover_lines;
pub use fault::ReportFault;
pub use laws::{lines_again, read_again};
pub use read::read_report;
pub use report::{Report, report_of};
pub use shifts::paid;
pub use summary::{Summary, write_summary};
pub use write::{header_line, number_line, write_report};
