//! The laws on what costs do with more employees.

ghost use Rattle.search_days.specs.day_curve.Laws.{AllowedWithMore, CostsFall, OfferedCostsFall};

/// A roster that is allowed with few employees of a team at most is allowed with more, at the same cost.
pub fn allowed_with_more()
    ensures { AllowedWithMore }
{}

/// Of two points of a curve, their certificates being right, the one with more employees at most costs no
/// more where it is closed, none being above all numbers. The one with fewer need not be closed.
pub fn costs_fall()
    ensures { CostsFall }
{}

/// Where what is found with more employees at most costs no more than the roster of a right certificate with
/// fewer, if that is allowed, it costs no more than the certificate says, closed or not.
pub fn offered_costs_fall()
    ensures { OfferedCostsFall }
{}
