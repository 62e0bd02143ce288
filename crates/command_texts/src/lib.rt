//! Commands that answer from texts alone: what a word costs, the first trees of a day, what may come next,
//! what fits, whether a certificate is accepted, what a stated roster comes to, what remains beside kept
//! shifts, and a day that counts how far another is from having a roster. They store nothing.
#![tactic(auto)]

pub mod check;
pub mod explain;
mod finding_text;
pub mod findings;
pub mod fits;
pub mod next;
pub mod rank;
pub mod relax;
pub mod start;
pub mod text_places;
mod unfit;
pub mod what_if;
