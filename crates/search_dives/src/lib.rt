//! Dives: rosters found from the fractional weights of the trees at a node's solution.
//!
//! How it goes: the node's program is solved by a float program (`lp_float_programs`), which begins at the
//! basis of the last column generation there, with trees listed that are cheap at its prices; the weights of
//! the basis are summed by arc; *widest* trees, whose least sum of an arc is greatest, are fixed and taken
//! off the right sides; and so on until no tree has weight. Once the value, with what the fixed trees cost,
//! is above the cost of the best roster less 1, hardly a roster with these trees costs less: then the dive is
//! dropped. Trees are asked for up to ten times a step, each time a cheapest one and further ones under other
//! arcs of the root, up to eight, until none is cheap, or until the value is above what prices show of it
//! (their Lagrangian value, where the run before ended at least cost) by at most one part in 1,024; no
//! further one is listed either where that alone is above the cost less 1. A tree that is fixed need not be
//! in the basis: at a width of 1 or more the rest stays balanced, so nothing is lost. A step fixes all trees
//! of a width of 12/16 and more; where there is none, up to a quarter of what the weights add up to, the
//! first at any width from 2^-8 on and others from 1/2 on.
//!
//! A widest tree is a tree of least sum under prices of arcs alone, so it is found by one pass over the short
//! order: an arc costs 64 times as much as one with a sixteenth more weight.
//!
//! A dive's work is limited by counts of steps, of passes, and of the entries that the float program and the
//! arcs that passes touch (4,000 for each pair of rows and for each arc), and by a watch (`search_watch`): it
//! is asked behind each run of the float program and within it, and where it is over no further tree is
//! fixed.
#![tactic(auto)]

mod asking;
mod descent;
mod diving;
mod fixing;
mod least;
mod others;
mod program;
mod rows;
mod start;
mod sums;
mod widest;
mod widths;
mod workspace;

pub use diving::dive;
pub use rows::{float_program_of, list_places};
pub use start::{Asks, DiveStart};
