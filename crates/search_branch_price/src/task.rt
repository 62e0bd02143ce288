//! What is asked of a search.

use lp_master_rows::Day;
use search_primal::Start;

/// A day that is to be searched.
#[derive(Clone, Copy, Drop)]
pub struct SearchTask<'a> {
    /// The day.
    pub day: Day<'a>,
    /// The most turns, 1 to 10,000.
    pub turns: u32,
    /// What the search begins with of an old certificate.
    pub start: Start<'a>,
}
