//! What lines of a demand text have in common, and those that say how many employees work: `heads A B`,
//! with the least number of employees, 0 to 64, and the greatest, 1 to 64 and at least A; or up to eight
//! lines `group NAME A B`, with the same of those who work by the words of a name, the greatest numbers
//! together at most 64.
#![tactic(auto)]

mod code;
mod draft;
mod fault;
mod field;
mod heads;
mod message;

pub use code::work;
pub use draft::{Bound, Draft, Heads, Need};
pub use fault::DemandFault;
pub use field::number;
pub use heads::{read_group, read_heads};
pub use message::fault_line;
