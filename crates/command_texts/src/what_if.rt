//! Commands that ask what a roster comes to that anybody wrote, and what remains beside it. They store
//! nothing.

mod gone;
pub mod laws;
mod limits;
pub mod rest;
pub mod value;
mod wrong;

pub use wrong::{both, fault_remark};
