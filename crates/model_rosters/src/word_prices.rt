//! Prices under which the least sum of the day's trees is the price of one word.

mod laws;
mod prices;

pub use laws::{least_tree, shift_length, word_sums};
pub use prices::WordPrices;
