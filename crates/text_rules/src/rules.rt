//! The rules so far.

use crate::names::Names;
use model_rosters::{List, Rule};

/// The rules so far, with the names that they speak of.
#[derive(Drop)]
pub struct Rules {
    pub names: Names,
    pub rules: List<Rule>,
}
