//! The lines and cells of a table that a spreadsheet saved as CSV.
//!
//! The first semicolon, tab or comma of the first line parts the cells of all lines; where there is none,
//! spaces do. A cell may stand in quotation marks, which are doubled within it. What a cell says are its
//! words, with one space between them.
#![tactic(auto)]

mod fault;
mod lines;
mod reading;
mod separator;
mod signs;
mod split;

pub use fault::CellFault;
pub use lines::{Line, Lines};
pub use reading::{Place, Reading};
pub use separator::separator_of;
pub use signs::sign_fault;
pub use split::{are_empty, cells};
