//! The day that is searched once it is known not to be plainly infeasible, and what is asked there.

use crate::start::Start;
use lp_master_rows::Day;

/// A day that is searched, which is not plainly infeasible.
#[derive(Clone, Copy, Drop)]
pub struct SearchedDay<'a> {
    /// The day.
    pub day: Day<'a>,
    /// Of each name of the grammar, in its order, whether it derives a word of the day.
    pub derives: &'a [bool],
}

/// What is asked of a search.
#[derive(Clone, Copy, Drop)]
pub struct Job<'a> {
    /// The day that is searched.
    pub searched: SearchedDay<'a>,
    /// The most turns, 1 to 10,000.
    pub turns: u32,
    /// What it begins with of an old certificate.
    pub start: Start<'a>,
}
