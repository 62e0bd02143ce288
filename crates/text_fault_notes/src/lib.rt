//! What is noted to a person of a text that is refused: the numbers and the place of its fault, sought in the
//! text when the note is made. Where memory does not suffice there is no note.
#![tactic(auto)]

mod bytes;
mod demand;
mod lines;
mod numbers;
mod proof;
mod refused;
mod roster;
mod rules;
mod rules_words;

pub use bytes::comment_note;
pub use demand::demand_note;
pub use lines::listed;
pub use numbers::{Numbers, Range, number_note, within};
pub use proof::proof_note;
pub use refused::{Words, count_note, line_note, shown, text_note, word_note};
pub use roster::{RosterWrong, roster_note};
pub use rules::rules_note;
