//! Prices that weighted trees show to be the best ones at a node, and the weighted trees of a float program's
//! last basis that may show it.
//!
//! Weights are in units of 2^-56. What the trees bring to each row, what the residuals cost (what is missing,
//! or what is beyond; a row without a column for it must not be exceeded), what the trees cost and the value
//! of the prices are computed exactly, and compared without overflow: with a cost of `q * a + b`, b below q,
//! `cost * d <= value * q` is `a * d + (b * d rounded up to a multiple of q) / q <= value`.
#![tactic(auto)]

mod costs;
mod listed;
mod near;
mod near_weights;
mod sums;
mod within;

pub use listed::ListedTree;
pub use near::{Near, near_prices};
pub use near_weights::{NearHint, near_hint};
