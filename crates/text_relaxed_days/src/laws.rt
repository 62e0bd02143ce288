//! The laws on rosters of relaxed days.

ghost use Rattle.text_relaxed_days.specs.declared.kind.Kind.{Kind};
ghost use Rattle.text_relaxed_days.specs.Laws.{
  RelaxedDaysTell,
  ShiftsAreFree,
  ShiftsHavePrices,
};

use law_bounds::have_least_sums;

/// States a law, of floors and of ceilings: the allowed rosters of the relaxed day are those of the day for
/// which the relaxed bounds count for nothing, and each costs how many employees' periods it lacks, or has
/// too many. A roster is allowed on the day exactly where it costs 0 on the relaxed day, so the day has an
/// allowed roster exactly where the relaxed day has one of cost 0.
pub fn relaxed_days_tell()
    ensures { (kind : Kind) → RelaxedDaysTell kind }
{
    have_least_sums();
}

/// States a law: rules that cost nothing have the same shifts, each at the price 0.
pub fn shifts_are_free()
    ensures { ShiftsAreFree }
{}

/// States a law: each shift of a sound grammar has a price.
pub fn shifts_have_prices()
    ensures { ShiftsHavePrices }
{
    have_least_sums();
}
