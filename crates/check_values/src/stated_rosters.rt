//! The roster text: the shifts of a roster that anybody wrote.
//!
//! ```text
//! # my roster
//! shift .aaa
//! shift aaa. 5
//! ```
//!
//! A line has the word of a shift; where the day has groups of employees, the name of one stands before the
//! word. A number behind the word counts for nothing. Where the first line is `report 1` or `report 2`, as in
//! a report that the program says, lines with another first word are passed over; a line `cost none` there
//! tells that there is no roster, and is refused.

mod fault;
mod field;
mod laws;
mod line;
mod message;
mod read;
mod shift;

pub use fault::RosterFault;
pub use laws::refused_line;
pub use message::fault_line;
pub use read::{begins_report, read_roster};
