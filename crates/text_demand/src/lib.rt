//! The demand text: how many employees work on a day, and what the day asks of its work codes.
//!
//! ```text
//! heads 0 10
//! need a 30 1 0 1 2 1
//! least a 0 1 1 0
//! most a 9 9 3 9
//! ```
//!
//! A `heads` line has the least and the greatest number of employees. In its place a line
//! `group NAME A B` for each of up to eight names says how many employees work by the words of
//! that name. A `need` line has a work code, what each missing and each further employee costs,
//! and how many are needed in each period. The lines `least` and `most` stand after the need line
//! of their code, and bound its coverage in each period.
#![tactic(auto)]

mod bound;
mod cells;
mod counts;
mod extend;
mod from_draft;
mod laws;
mod line;
mod need;
mod number_of;
mod read;
mod write;

pub use extend::day_grammar;
pub use from_draft::finish;
pub use laws::{
    accepted_lines, extension_is_sound, refused_line, written_again, written_again_behind_comment,
};
pub use read::read_demand;
pub use text_demand_lines::{DemandFault, fault_line};
pub use write::write_demand;
