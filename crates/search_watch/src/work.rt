//! What a turn is at.

/// What a search does within a turn.
#[derive(Clone, Copy, Debug, PartialEq, Eq, Drop)]
pub enum Work {
    /// It looks for a first roster.
    First,
    /// It looks for a node's prices, with so many trees at hand; the best prices that it met show this bound,
    /// where they show any.
    Prices { trees: u64, bound: Option<u64> },
    /// It looks for an arc to split on.
    Splits,
    /// It looks for better rosters.
    Rosters,
}
