//! The duty lines of a plan: what one says, and whether what it asks together can be.
#![tactic(auto)]

mod behind;
mod line;
mod parts;
mod plus;
mod stretch;
mod sums;
mod tail;
mod together;

pub use line::read_duty;
pub use together::fits;
