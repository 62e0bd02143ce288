//! The laws on the prices of a pattern, and of one answer.

ghost use Rattle.tree_questions.specs.Laws.{LeastSums, MarginalPrices, PatternSums};
ghost use Rattle.tree_questions.specs.Once.{OneFitsAnswer, OneNextAnswer, OneRankedAnswer};

/// Under the prices of a pattern a tree of the day has a sum exactly where the pattern takes the front of
/// its word, and the sum is its cost.
pub fn pattern_sums()
    ensures { PatternSums }
{}

/// The least sum under the prices of a pattern is the least price of the shifts whose front it takes.
pub fn least_sums()
    ensures { LeastSums }
{}

/// A marginal of a code at a period under the prices of a pattern is the least price of the shifts whose
/// front it takes and that have the code there.
pub fn marginal_prices()
    ensures { MarginalPrices }
{}

/// The question for the first trees has one answer.
pub fn one_ranked_answer()
    ensures { OneRankedAnswer }
{}

/// The question for the codes that may come next has one answer.
pub fn one_next_answer()
    ensures { OneNextAnswer }
{}

/// The question for the shifts that fit has one answer.
pub fn one_fits_answer()
    ensures { OneFitsAnswer }
{}
