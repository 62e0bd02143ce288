//! The second program's one command: a certificate that it has checked itself, or the roster of a report, as
//! a page.
#![tactic(auto)]

mod accepted;
mod asking;
mod beside;
mod check;
mod dated;
mod events_note;
mod form;
mod judgement;
mod laws;
mod limits;
mod old;
mod old_fault;
mod program;
mod refused;
mod remarks;
mod report;
mod request;

pub use laws::{groups_derive_by_the_rules, labels_by_front, one_page};
pub use program::run;
