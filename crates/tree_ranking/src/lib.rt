//! The first trees of a day in the order of their sums, and of their rule uses where sums are equal.
//!
//! The search goes over beginnings of lists of rule uses, that of the least sum first: what the tables
//! hold for names and suffixes tells the least sum of all trees that begin so. What still has to be
//! derived stands beside each beginning.
//!
//! The search goes over beginnings of lists of rule uses (`Candidate`). Beside each beginning stands what is
//! still to be derived (`Frame`, `Pending`), and the least sums of names and suffixes (`tree_span_cells`)
//! tell the least sum of all trees that begin so. The first candidate goes on with its first child of least
//! sum until nothing is pending, and its tree is given; the other children are put among those that wait, in
//! their order, of which no more are kept than trees are still asked for. A place among them is found by
//! halving, and a child whose sum is above all of them, where there is no more room, is not copied.
#![tactic(auto)]

mod branch;
mod candidate;
mod children;
mod frame;
mod order;
mod pending;
mod progress;
mod ranking;
mod sums;

pub use ranking::{Ranked, rank};
