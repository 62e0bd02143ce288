//! For each code and period the least sum of a tree of the day with this code at this period: sums of
//! what stands on each span bottom up, and then, top down, sums of the trees of the day around it.
//!
//! It holds `Marginals`, filled bottom up and then top down. Bottom up are the cells of `tree_span_cells`:
//! for each name and suffix on each span the least sum of what stands there. Top down are as many totals: for
//! each of them the least sum of a tree of the day in which it stands there. Spans go by falling length, and
//! on one span the slots go the other way round than when the cells are filled. A total less the sum in the
//! cell is what stands around; with the price of a rule, an arc and the least sum of what stands beside, it
//! is pushed to the totals of the parts, and in the end to those of the letters, which are the values.

mod lowering;
mod marginals;
mod names;
mod parts;
mod slots;
mod totals;

pub use marginals::Marginals;
