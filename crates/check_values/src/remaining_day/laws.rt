//! Which rosters have the kept shifts, and how the text is read.

ghost use Rattle.check_values.specs.remaining_day.Laws.{RestIsRight};
ghost use Rattle.check_values.specs.remaining_day.OtherLaws.{CausesForbid, RestIsRead};

/// States a law: where the kept shifts are shifts of the day within its greatest numbers, and somebody is
/// left, the rosters of the day that have them are exactly these with a roster of the remaining day, at the
/// cost of that roster, the prices of the kept shifts and their overstaffing.
pub fn rest_is_right()
    ensures { RestIsRight }
{}

/// States a law: where there is a cause, no roster of the day has the kept shifts.
pub fn causes_forbid()
    ensures { CausesForbid }
{}

/// States a law: the text of a remaining day, for the grammar of its rules, is read as that day.
pub fn rest_is_read()
    ensures { RestIsRead }
{}
