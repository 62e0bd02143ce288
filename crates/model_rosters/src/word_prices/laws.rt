//! The laws on the price of a word.

ghost use Rattle.model_rosters.specs.word_prices.Prices.{LeastTree, ShiftLength, WordSums};

/// Under the prices of a word that is as long as the day, a tree of the day has a sum exactly where
/// it derives this word, and the sum is the tree's cost.
pub fn word_sums()
    ensures { WordSums }
{}

/// A shift has as many letters as the day has periods.
pub fn shift_length()
    ensures { ShiftLength }
{}

/// Under the prices of a word, a tree of least sum derives the word, and its cost is the price.
pub fn least_tree()
    ensures { LeastTree }
{}
