//! The remaining day, or why there is none.

use crate::Cause;
use model_rosters::{Instance, List};

/// The remaining day, and what the kept shifts add to the cost of its rosters.
#[derive(Debug, PartialEq, Eq, Drop)]
pub struct Rest {
    pub day: Instance,
    /// The sum of the prices of the kept shifts.
    pub paid: u64,
    /// What their overstaffing costs.
    pub penalty: u64,
}

/// What remains of a day beside kept shifts.
#[derive(Debug, PartialEq, Eq, Drop)]
pub enum Remaining {
    /// The remaining day.
    Day(Rest),
    /// Nobody may work beside the kept shifts, so there is no remaining day.
    Nobody,
    /// No roster of the day has the kept shifts: each cause, at least one.
    Impossible(List<Cause>),
}
