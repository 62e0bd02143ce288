//! The laws that least sums and Lagrangian values exist.

ghost use Rattle.law_bounds.specs.least_values.Laws.{HaveLeastSums, HaveValues, BestBoundsRivals};

/// Under any prices the trees of a name have a least sum over the day of a sound grammar, or none has a sum.
pub fn have_least_sums()
    ensures { HaveLeastSums }
{}

/// Any prices have a Lagrangian value at any list of cuts of a sound day.
pub fn have_values()
    ensures { HaveValues }
{}

/// So prices that are best stand above each rival: both have a value, and the rival's, over its denominator,
/// is above theirs by no more than the loss.
pub fn best_bounds_rivals()
    ensures { BestBoundsRivals }
{}
