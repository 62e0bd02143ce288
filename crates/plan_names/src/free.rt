//! Which activities of a set are free.

ghost use Rattle.std.specs.Prelude.{◌≡◌, ◌++◌, [], ◌∷◌, IfOk, OnOk, max};
ghost use Rattle.plan_laws.specs.Names.{chosen, is_bound, others};
ghost use Rattle.plan_laws.specs.PeriodShifts.{change_cost};
ghost use Rattle.plan_names.specs.FreeCodes.{
  free_of,
  has_work_of,
  is_work_of,
  line_longest,
  longest_from,
  longest_of,
};

use model_rosters::{List, Memory};
use plan_laws::{Activity, NamedLines, PeriodDuty, PeriodPart, PeriodPlan};
use std::alloc::Global;

// Says whether a part is work of the set.
fn is_work_of(set: &[Activity], part: &PeriodPart) -> bool
    ensures { result ≡ is_work_of set.now part.now }
{
    match part {
        PeriodPart::Working(other) => set == other.as_slice(),
        PeriodPart::Pausing(_, _) => false,
    }
}

// Says whether a part is work of the set.
fn has_work_of(set: &[Activity], parts: &[PeriodPart]) -> bool
    ensures { result ≡ has_work_of set.now parts.now }
{
    for part in parts {
        if is_work_of(set, part) {
            return true;
        }
    }
    false
}

// Returns the longest stretch that a line allows where it has this plus and this set; else 0.
fn line_longest(plus: u32, set: &[Activity], line: &PeriodDuty) -> u8
    ensures { result ≡ line_longest plus set.now line.now }
{
    if line.plus == plus && has_work_of(set, line.parts.as_slice()) {
        line.stretch.hi
    } else {
        0
    }
}

// Returns the greater number.
fn greater(one: u8, two: u8) -> u8
    ensures { result ≡ max one two }
{
    if one < two { two } else { one }
}

// Returns the greatest of a number and the longest stretches of lines with this plus and this set.
fn longest_from(least: u8, plus: u32, set: &[Activity], lines: &[PeriodDuty]) -> u8
    ensures { result ≡ longest_from least plus set.now lines.now }
{
    let mut most = least;
    for line in lines {
        most = greater(most, line_longest(plus, set, line));
    }
    most
}

// Returns the longest stretch that lines with this plus and this set allow.
fn longest_of(plus: u32, set: &[Activity], staff: &[NamedLines]) -> u8
    ensures { result ≡ longest_of 0 plus set.now staff.now }
{
    let mut most = 0_u8;
    for named in staff {
        most = longest_from(most, plus, set, named.lines.as_slice());
    }
    most
}

/// Returns what a change costs; nothing where no activity may change.
pub(crate) fn change_cost(plan: &PeriodPlan) -> u32
    ensures { result ≡ change_cost plan.now }
{
    match plan.change {
        Some(cost) => cost,
        None => 0,
    }
}

// Says whether an activity of the set is free.
fn is_free(
    plan: &PeriodPlan,
    staff: &[NamedLines],
    plus: u32,
    set: &[Activity],
    activity: &Activity,
) -> bool
    ensures { result ≡ free_of plan.now staff.now plus set.now activity.now }
{
    change_cost(plan) != 0 && longest_of(plus, set, staff) <= activity.greatest
}

// Appends an activity of the set, if it is free.
fn add_free(
    plan: &PeriodPlan,
    staff: &[NamedLines],
    plus: u32,
    set: &[Activity],
    activity: &Activity,
    all: &mut List<Activity>,
) -> Result<(), Memory>
    ensures { OnOk result (all.new ≡ all.old
        ++ chosen (free_of plan.now staff.now plus set.now) (activity.now ∷ [])) }
{
    if is_free(plan, staff, plus, set, activity) {
        all.push(*activity)?;
        return Ok(());
    }
    Ok(())
}

/// Returns the activities of a set that are free.
///
/// # Errors
///
/// `Memory` where memory runs out.
pub(crate) fn free_ones(
    alloc: Global,
    plan: &PeriodPlan,
    staff: &[NamedLines],
    plus: u32,
    set: &[Activity],
) -> Result<List<Activity>, Memory>
    ensures { IfOk result (λ all. all ≡ chosen (free_of plan.now staff.now plus set.now) set.now) }
{
    let mut all = List::new(alloc);
    for activity in set {
        add_free(plan, staff, plus, set, activity, &mut all)?;
    }
    Ok(all)
}

// Says whether an activity of the set is bound.
fn is_bound(
    plan: &PeriodPlan,
    staff: &[NamedLines],
    plus: u32,
    set: &[Activity],
    activity: &Activity,
) -> bool
    ensures { result ≡ is_bound (free_of plan.now staff.now) plus set.now activity.now }
{
    !is_free(plan, staff, plus, set, activity)
}

// Appends an activity of the set, if it is bound.
fn add_bound(
    plan: &PeriodPlan,
    staff: &[NamedLines],
    plus: u32,
    set: &[Activity],
    activity: &Activity,
    all: &mut List<Activity>,
) -> Result<(), Memory>
    ensures { OnOk result (all.new ≡ all.old
        ++ chosen (is_bound (free_of plan.now staff.now) plus set.now) (activity.now ∷ [])) }
{
    if is_bound(plan, staff, plus, set, activity) {
        all.push(*activity)?;
        return Ok(());
    }
    Ok(())
}

/// Returns those of some activities of a set that are bound.
///
/// # Errors
///
/// `Memory` where memory runs out.
pub(crate) fn bound_ones(
    alloc: Global,
    plan: &PeriodPlan,
    staff: &[NamedLines],
    plus: u32,
    set: &[Activity],
    some: &[Activity],
) -> Result<List<Activity>, Memory>
    ensures { IfOk result (λ all. all
        ≡ chosen (is_bound (free_of plan.now staff.now) plus set.now) some.now) }
{
    let mut all = List::new(alloc);
    for activity in some {
        add_bound(plan, staff, plus, set, activity, &mut all)?;
    }
    Ok(all)
}

// Appends an activity of another code.
fn add_other(all: &mut List<Activity>, one: Activity, activity: &Activity) -> Result<(), Memory>
    ensures { OnOk result (all.new ≡ all.old ++ others one (activity.now ∷ [])) }
{
    if activity.code == one.code {
        return Ok(());
    }
    all.push(*activity)
}

/// Returns the activities of other codes.
///
/// # Errors
///
/// `Memory` where memory runs out.
pub(crate) fn others(
    alloc: Global,
    one: Activity,
    set: &[Activity],
) -> Result<List<Activity>, Memory>
    ensures { IfOk result (λ all. all ≡ others one set.now) }
{
    let mut all = List::new(alloc);
    for activity in set {
        add_other(&mut all, one, activity)?;
    }
    Ok(all)
}
