//! What is noted to a person of an old proof text or report, of this day or of another one, as another day
//! reads it. Where memory does not suffice there is no note.
#![tactic(auto)]

mod fault;
mod lines;

pub use fault::old_note;
