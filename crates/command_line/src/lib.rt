//! The words of the roster program's command line, what they ask for, and the answer.
#![tactic(auto)]

mod form;
mod notes;
mod program;

pub use program::run;
