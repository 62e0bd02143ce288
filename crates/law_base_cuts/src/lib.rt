//! The cuts with which each path of a search and of a certificate begins: the head counts of groups.
#![tactic(auto)]

mod push;

pub use push::push_base_cuts;
