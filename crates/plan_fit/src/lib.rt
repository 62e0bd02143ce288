//! A law: a plan that was read is fit for numbers of periods.
#![tactic(auto)]

mod laws;

pub use laws::read_is_fit;
