//! What the lines so far say.

use model_rosters::{Group, List};

/// How many employees may work: 0 to 64 at least, 1 to 64 at most.
#[derive(Clone, Copy, Drop)]
pub struct Heads {
    /// The least number of employees, no more than the greatest.
    pub least: u32,
    /// The greatest number of employees.
    pub most: u32,
}

/// The need line of a work code.
#[derive(Drop)]
pub struct Need {
    /// The position of the code in the grammar's `codes`.
    pub code: u8,
    /// What each missing employee costs, 0 to 10,000.
    pub under: u32,
    /// What each further employee costs, 0 to 10,000.
    pub over: u32,
    /// How many employees each period needs, 0 to 64.
    pub counts: List<u32>,
}

/// A line that bounds the coverage of a work code in each period.
#[derive(Drop)]
pub struct Bound {
    /// The position of the code in the grammar's `codes`.
    pub code: u8,
    /// The bound of each period, 0 to 64.
    pub counts: List<u32>,
}

/// What the lines so far say, each list in the order of its lines.
#[derive(Drop)]
pub struct Draft {
    /// What the `heads` line says; none where groups are.
    pub heads: Option<Heads>,
    /// The groups, at most 8, each of another name, with at most 64 employees together.
    pub groups: List<Group>,
    /// The need lines, each of another code.
    pub needs: List<Need>,
    /// The `least` lines, each of another code that has a need line.
    pub least: List<Bound>,
    /// The `most` lines, each of another code that has a need line.
    pub most: List<Bound>,
}
