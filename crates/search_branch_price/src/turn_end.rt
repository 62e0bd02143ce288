//! How a turn of a search ended.

use model_rosters::Prices;
use search_open_nodes::OpenLeaf;

/// Prices of the root, and what they show.
#[derive(Debug, Drop)]
pub(crate) struct RootPrices {
    pub prices: Prices,
    pub value: u64,
}

/// How a turn ended.
#[derive(Debug, Drop)]
pub(crate) enum TurnEnd {
    /// Its node was processed.
    Done,
    /// The watch stopped it with this leaf in hand, which stays open.
    Stopped(OpenLeaf),
    /// The watch stopped it, and it was the first one. The root has these prices, which fit it and need not
    /// be best.
    StoppedAtRoot(RootPrices),
}
