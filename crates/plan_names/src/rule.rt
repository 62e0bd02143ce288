//! Rules and symbols.

use crate::names::RuleName;
use model_rosters::{List, Window};

/// A symbol of a right side.
#[derive(Clone, Copy, Drop)]
pub enum RuleSymbol<'a> {
    /// The letter of a code.
    Coded(u8),
    /// A name.
    Named(RuleName<'a>),
}

/// A rule of a name.
#[derive(Drop)]
pub struct NameRule<'a> {
    /// What a use of it costs.
    pub cost: u32,
    /// The right side.
    pub right: List<RuleSymbol<'a>>,
    /// The lengths of the spans on which it may stand.
    pub span: Window,
    /// The periods in which such a span may begin.
    pub first: Window,
    /// The periods in which such a span may end.
    pub last: Window,
}
