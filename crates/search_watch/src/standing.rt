//! How far a search is, and whose it is.

/// Whose search is watched.
#[derive(Clone, Copy, Debug, PartialEq, Eq, Drop)]
pub enum Subject {
    /// That of `solve`.
    Solve,
    /// That of `make`.
    Make,
    /// That of a point of a curve, with so many employees at most.
    Point { heads: u32 },
}

/// How far a search is between two turns.
#[derive(Clone, Copy, Debug, PartialEq, Eq, Drop)]
pub struct Standing {
    /// How many turns were taken whole, 1 or more.
    pub turn: u32,
    /// How many may be taken.
    pub turns: u32,
    /// What the best roster costs, where there is one.
    pub cost: Option<u64>,
    /// What no allowed roster costs less than.
    pub bound: u64,
    /// How many leaves are open, the one that is taken next among them.
    pub open: u64,
    /// How many nodes were split without prices.
    pub unpriced: u32,
}
