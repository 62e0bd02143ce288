//! Weighted trees and prices of the last basis of a float program, to be judged by an exact call.
//!
//! How it goes:
//! 1. The values of the basis are refined in whole numbers (`lp_float_programs`), in units of 2^-56; a
//!    negative one becomes 0.
//! 2. They are *mended*: rows of at most (the greatest head count, ceilings, Low cuts) have no column for
//!   what is beyond, so they must hold exactly, while each unit missing in a row of at least (the least head
//!   count, floors, High cuts) costs the artificial price. Pass by pass trees of short rows are raised and
//!   trees of exceeded rows lowered, each time the tree that harms fewest tight rows of the other kind and,
//!   of equal ones, has most weight. A pass that raises is always followed by one that lowers, so no row of
//!   at most stays exceeded. Rows of cells are met about and are left alone: what a step moves there is a few
//!   units of 2^-56.
//! 3. Trees of weight above 0 are listed by their numbers, each once.
//! 4. The prices are refined in units of 2^-40. The float program may price artificial columns below their
//!    true cost; where one has a value above 2^-16, the true costs count.

mod hint;
mod mending;
mod table;

pub use hint::{NearHint, near_hint};
