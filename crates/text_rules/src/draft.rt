//! What the lines so far say.

use crate::codes::Codes;
use crate::place::Place;
use crate::rules::Rules;
use model_rosters::{Grammar, List};

/// The start line.
#[derive(Drop)]
pub struct Start {
    pub line: u32,
    pub name: List<u8>,
}

/// What the lines so far say.
#[derive(Drop)]
pub struct Draft {
    pub periods: Option<u8>,
    pub codes: Codes,
    pub start: Option<Start>,
    pub rules: Rules,
}

/// A grammar, and the place where each of its names appears first in the rules.
#[derive(Drop)]
pub struct Parsed {
    pub grammar: Grammar,
    pub places: List<Place>,
}
