//! The plain table: the least sums of all trees of a grammar, by symbol or suffix and span; and those of the
//! trees that have a code at a period.
#![tactic(auto)]

mod next_codes;
mod table;
mod walk;

pub use next_codes::Marginals;
pub use table::Table;
