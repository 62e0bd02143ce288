//! The law.

ghost use Rattle.plan_by_names.specs.ByNames.{NamesLaw};

/// States a law: where each duty line has a staff line, the lines of all names are those of the plan, in
/// some order and number.
pub fn names_hold_all()
    ensures { NamesLaw }
{}
