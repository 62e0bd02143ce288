//! What is noted to a person of a labels text that is refused: the numbers and the place of its fault, sought
//! in the text when the note is made. Where memory does not suffice there is no note.
#![tactic(auto)]

mod amounts;
mod bytes;
mod label;
mod lines;
mod names;
mod shift;

pub use label::{label_note, no_clock_note};
pub use shift::shift_note;
