//! The cases of time off that the times of duty lines leave.

ghost use Rattle.std.specs.Prelude.{◌≡◌, ◌≤◌, ◌+◌, ◌*◌, ◌-◌, ◌&&◌, ℕ, nat_eq, suc};
ghost use Rattle.plan_laws.specs.Names.{
  agrees,
  is_within,
  leaves,
  line_leaves,
  lines_leave,
  may_stand,
  none_left,
  some_number,
};

use model_rosters::Window;
use plan_laws::{PeriodDuty, PeriodPlan};

// Says whether a number is within a window.
fn is_within(window: Window, number: u32) -> bool
    ensures { result ≡ is_within window number }
{
    u32::from(window.lo) <= number && number <= u32::from(window.hi)
}

// Says whether so many steps behind the first start a duty begins behind so many periods.
fn starts_at(plan: &PeriodPlan, behind: u32, steps: u32) -> bool
    requires { steps ≤ 255 }
    ensures { result ≡ nat_eq behind (plan.now.first_start + steps * plan.now.starts) }
{
    behind == u32::from(plan.first_start) + steps * u32::from(plan.starts)
}

// Says whether a duty may begin behind so many periods.
fn is_start(plan: &PeriodPlan, behind: u32) -> bool
    requires { behind ≤ 255 }
    ensures { result ≡ some_number (λ (q : ℕ). nat_eq behind
        (plan.now.first_start + q * plan.now.starts)) 0 (suc behind) }
{
    for steps in 0..behind + 1 {
        if starts_at(plan, behind, steps) {
            return true;
        }
    }
    false
}

// Says whether by a line's times a duty of so many periods may stand behind so many.
fn may_stand(plan: &PeriodPlan, line: &PeriodDuty, behind: u32, length: u32) -> bool
    requires behind { behind ≤ 255 }
    requires length { length ≤ 255 }
    ensures { result ≡ may_stand plan.now line.now behind length }
{
    is_within(line.length, length)
        && is_within(line.begin, 1 + behind)
        && is_within(line.end, 1 + behind + length - 1)
        && behind + length <= u32::from(plan.periods)
        && is_start(plan, behind)
}

// Says whether by its times a duty of the line, of so many periods, may stand behind so many, and ends with
// the day or not.
fn stands_so(plan: &PeriodPlan, line: &PeriodDuty, behind: u32, late: bool, length: u32) -> bool
    requires behind { behind ≤ 255 }
    requires length { length ≤ 255 }
    ensures { result ≡ (agrees late (nat_eq (behind + length) plan.now.periods)
        && may_stand plan.now line.now behind length) }
{
    let ends = behind + length == u32::from(plan.periods);
    late == ends && may_stand(plan, line, behind, length)
}

// Says whether by its times a duty of the line may stand behind so many periods, and end with the day or not.
fn leaves_behind(plan: &PeriodPlan, line: &PeriodDuty, behind: u32, late: bool) -> bool
    requires { behind ≤ 255 }
    ensures { result ≡ some_number (λ (n : ℕ). agrees late (nat_eq (behind + n) plan.now.periods)
        && may_stand plan.now line.now behind n) 0 (suc plan.now.periods) }
{
    for length in 0..u32::from(plan.periods) + 1 {
        if stands_so(plan, line, behind, late, length) {
            return true;
        }
    }
    false
}

// Says whether by its times a duty of the line may stand behind so many periods, and begins with the day or
// not, and may end with it or not.
fn leaves_so(plan: &PeriodPlan, line: &PeriodDuty, early: bool, late: bool, behind: u32) -> bool
    requires { behind ≤ 255 }
    ensures { result ≡ (agrees early (nat_eq behind 0)
        && some_number (λ (n : ℕ). agrees late (nat_eq (behind + n) plan.now.periods)
        && may_stand plan.now line.now behind n) 0 (suc plan.now.periods)) }
{
    early == (behind == 0) && leaves_behind(plan, line, behind, late)
}

// Says whether by its times a duty of the line may begin with the day, or not, and end with it, or not.
fn line_leaves(plan: &PeriodPlan, line: &PeriodDuty, early: bool, late: bool) -> bool
    ensures { result ≡ line_leaves plan.now line.now early late }
{
    for behind in 0..u32::from(plan.periods) + 1 {
        if leaves_so(plan, line, early, late, behind) {
            return true;
        }
    }
    false
}

// Says whether one of the lines leaves this case of time off.
fn lines_leave(plan: &PeriodPlan, lines: &[PeriodDuty], early: bool, late: bool) -> bool
    ensures { result ≡ lines_leave plan.now lines.now early late }
{
    for line in lines {
        if line_leaves(plan, line, early, late) {
            return true;
        }
    }
    false
}

// Says whether the lines leave no case of time off.
fn none_left(plan: &PeriodPlan, lines: &[PeriodDuty]) -> bool
    ensures { result ≡ none_left plan.now lines.now }
{
    !(lines_leave(plan, lines, true, true)
        || lines_leave(plan, lines, true, false)
        || lines_leave(plan, lines, false, true)
        || lines_leave(plan, lines, false, false))
}

/// Says whether a case of time off has a rule: one that a line leaves, and where there is none, time off on
/// both sides.
pub(crate) fn leaves(plan: &PeriodPlan, lines: &[PeriodDuty], early: bool, late: bool) -> bool
    ensures { result ≡ leaves plan.now lines.now early late }
{
    lines_leave(plan, lines, early, late) || !early && !late && none_left(plan, lines)
}
