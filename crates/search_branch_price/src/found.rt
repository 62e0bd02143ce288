//! What a search answers.

use check_certificates::Cert;
use model_rosters::Done;

/// What a search found.
#[derive(Debug, Drop)]
pub struct Found {
    /// The roster of least cost that was found, the bound, and the tree of nodes that shows the bound.
    pub cert: Cert,
    /// How the search ended.
    pub done: Done,
    /// How many nodes were processed.
    pub processed: u32,
    /// How many nodes were split without prices.
    pub failed: u32,
}
