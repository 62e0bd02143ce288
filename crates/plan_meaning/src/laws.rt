//! The laws on times, and worked plans.

ghost use Rattle.std.specs.Prelude.{◌≡◌, false};
ghost use Rattle.plan_meaning.specs.declared.plan.PlanDay.{PlanDay};
ghost use Rattle.plan_meaning.specs.declared.plan.Time.{Time};
ghost use Rattle.plan_meaning.specs.Times.{IsFirstTime};
ghost use Rattle.plan_meaning.specs.WorkedPlans.{WorkedShop, WorkedTimes};

/// States a law: a time without a next day's mark is the first one that the clock shows from the day's begin
/// on, and as the end of something the first one behind the begin.
pub fn times_are_first()
    ensures { (d : PlanDay) (t : Time) → t.next_day ≡ false → IsFirstTime d t }
{}

/// States a law: cheapest and dearest shifts of a shop's two duty lines, at prices that were counted by hand.
pub fn worked_shop()
    ensures { WorkedShop }
{}

/// States a law: times of days that go beyond midnight, and what an hour of letters costs, counted by hand.
pub fn worked_times()
    ensures { WorkedTimes }
{}
