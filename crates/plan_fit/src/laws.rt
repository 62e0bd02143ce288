//! The law.

ghost use Rattle.plan_fit.specs.ReadPlans.{ReadingLaw};

/// States a law: the plan that a text says has whole periods, of which all numbers are small.
pub fn read_is_fit()
    ensures { ReadingLaw }
{}
