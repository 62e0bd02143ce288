//! The rules of a day with groups of employees.
//!
//! The grammar of such a day extends that of its rules by one name and a rule for each group.

mod laws;
mod plain;

pub use laws::{plain_of_extended, same_prices};
pub use plain::plain_grammar;
