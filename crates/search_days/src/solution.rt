//! What a day's search answers: what was found, with its text.

use model_rosters::List;
use search_branch_price::Found;

/// What a search found on a day, and the text of its certificate.
#[derive(Debug, Drop)]
pub struct Solution {
    /// What the search found.
    pub found: Found,
    /// How many arcs the day has, at most 100,000.
    pub arcs: u32,
    /// The text of the certificate.
    pub proof: List<u8>,
}
