//! What the caller gives for the moves.

use model_rosters::Prices;

/// What steers the moves of a roster.
#[derive(Clone, Copy, Drop)]
pub struct Guide<'a> {
    /// The prices of the node.
    pub prices: &'a Prices,
    /// How many passes over the graph the moves may take, times the square of the number of the roster's
    /// trees.
    pub passes: u32,
    /// How many further ones they may take, whatever the number of trees.
    pub further: u32,
    /// How many they may take at most, times that square, beside four times the further ones: where the
    /// roster becomes better, as many again are allowed as were taken.
    pub most: u32,
    /// A roster that costs no more than this is made no better.
    pub goal: u64,
    /// The turn of the search: numbers are drawn by it.
    pub turn: u32,
}
