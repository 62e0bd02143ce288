//! What prices show at a list of cuts: their Lagrangian value, rounded up to a whole cost.
//!
//! The relaxation is the textbook one of branch and price: each roster that meets the cuts costs at
//! least what the least reduced cost of a tree, the cells and the cuts bring.

mod derived;
mod infeasible;
mod priced;
mod shares;

pub use derived::derived_names;
pub use infeasible::is_plainly_infeasible;
pub use priced::{priced_value, value_from_least};
pub use shares::lagrangian_sum;
