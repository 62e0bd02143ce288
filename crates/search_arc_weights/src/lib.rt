//! The weights of a solution's trees, summed by the trees' arcs.
//!
//! How it goes: the least common denominator D of all weights; where it is above 2^100, `Other`, which near
//! weights never lead to, as their denominators divide 2^56. Then one number for each arc of the graph, the
//! sum of its trees' weights in units of 1/D: no sum overflows, since an arc stands at most once in a tree
//! and the row of the heads lets the trees weigh at most `heads_max` together. A sum counts as whole where it
//! is a multiple of D, or within D/4096 of one where the solution is near. Where all sums count as whole,
//! they are the counts, rounded to the nearest. Else an arc with a fractional sum is chosen whose sum rounded
//! down is at least the least count in the box: the one that is preferred, where it is one of these; else by
//! the greatest sum rounded down, then by the distance from a whole number, then by the arc's length, then by
//! its number. That the sum is below the arc's greatest count is shown by the rows of Low cuts and of the
//! heads. Where no arc is left, a High cut's row is missed: so its artificial column is used, and a near
//! solution's trees lack 2^-12 of its right side or more.
#![tactic(auto)]

mod choice;
mod denominator;
mod node;
mod raw;
mod sums;
mod weighed;

pub use node::SolvedNode;
pub use raw::farthest_from_whole;
pub use weighed::{Weighed, weigh};
