//! The labels text: what a page calls a day, its periods, codes and groups, and who works its shifts.
//!
//! ```text
//! title Monday
//! clock 7:00 15
//! code a phone desk
//! group Nurse night nurses
//! money EUR
//! paid p yes
//! off -
//! shift 3 Nurse aap- Anna Mai
//! decimals 2
//! ```
//!
//! The lines stand in any order, each at most once, and those of codes, groups and shifts once for each of
//! them. A title, a name and the words for a code or a group have 1 to 60 bytes of UTF-8, one space between
//! words. `clock` tells when the first period begins and how many minutes a period has, `paid` whether the
//! periods of a code that is no work count as paid, `off` which code is time off, `shift` who works a shift,
//! and `decimals` how many decimals amounts have.
#![tactic(auto)]

mod clock;
mod fault;
mod field;
mod labels;
mod laws;
mod line;
mod message;
mod read;
mod shift;
mod shift_line;
mod text_line;

pub use clock::{Clock, put_duration, put_time};
pub use fault::LabelFault;
pub use labels::{
    CodeLabel, GroupLabel, Labels, PaidCode, ShiftLabel, code_words, decimals_of, group_words,
    no_labels, shift_name,
};
pub use laws::{names_stand_at_their_shifts, refused_line};
pub use message::fault_line;
pub use read::read_labels;
pub use shift::refused_shift;
