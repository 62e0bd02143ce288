//! Why a plan text is refused, and the line that tells it.
//!
//! A fault of a line holds what it tells: numbers, codes, and words whole as they stand in the text.
//! `fault_line` writes it, as `plan: line 9: no line above has the code x`; the small writers of its parts
//! are there for other texts too.
#![tactic(auto)]

mod amounts;
mod clock;
mod counts;
mod duties;
mod fault;
mod lines;
mod message;
mod phrases;
mod words;

pub use amounts::put_amount;
pub use clock::{put_begin, put_clock, put_end};
pub use counts::{put_counted, put_number};
pub use fault::{
    CodeFault, DutyFault, Kind, LineFault, NameFault, PairFault, PartFault, PlanFault, Signs,
    StaffFault, StandFault, StartsFault,
};
pub use lines::put_signs;
pub use message::fault_line;
pub use phrases::say;
pub use words::put_word_fault;
