//! The labels text of a plan: what a page calls its day, its codes, its employees and its money.
#![tactic(auto)]

mod codes;
mod day;
mod line;
mod money;
mod staff;
mod text;

pub use text::labels_text;
