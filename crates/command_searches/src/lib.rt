//! Commands that stand on the search: a roster of least cost for a day, for one that is made from a number,
//! for each greatest head count, and what an old certificate still shows.
#![tactic(auto)]

pub mod curve;
mod from;
mod idle_codes;
mod infeasible;
pub mod limit;
mod lines;
pub mod make;
mod notes;
pub mod reuse;
pub mod solve;
mod store;
