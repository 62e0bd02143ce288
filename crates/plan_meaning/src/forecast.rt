//! What a forecast asks.

use model_rosters::List;

/// What a forecast asks of one code: a number for each step, in order.
#[derive(Debug, PartialEq, Eq, Drop)]
pub struct Column {
    /// How many employees are needed, 0 to 64 each.
    pub need: List<u8>,
    /// The least that must be there, 0 to 64 each, where a column says it; else none need be there.
    pub least: Option<List<u8>>,
    /// The most that may be there, 0 to 64 each, where a column says it; else 64 may.
    pub most: Option<List<u8>>,
}

/// How many employees are needed, step by step.
#[derive(Debug, PartialEq, Eq, Drop)]
pub struct Forecast {
    /// How many minutes a step has: one period or several.
    pub step: u32,
    /// What is asked of the code of each need line of the plan, in their order.
    pub columns: List<Column>,
}
