//! The shifts of an old proof text or an old report, as a day reads them that may be another one: with other
//! periods, codes, groups or none.
//!
//! ```text
//! report 2
//! result turns
//! cost 9
//! shift Nurse aa.. 5
//! shift Aide .aaa 4
//! ```
//!
//! The lines of shifts are read up to the first line of a node, and the other lines are passed over. `proof
//! 2` and `report 2` have the name of a group before each word.
#![tactic(auto)]

mod fault;
mod from;
mod header;
mod line;
mod read;
mod said;
mod shift;
mod whole;

pub use fault::OldFault;
pub use from::read_from;
pub use read::read_shifts;
pub use said::SaidShifts;
pub use whole::fitting;
