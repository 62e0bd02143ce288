//! The lines of each duty name.

ghost use Rattle.std.specs.Prelude.{◌≡◌, ◌≤◌, [], ◌∷◌, ◌++◌, All, IfOk, OnOk, Some, None};
ghost use Rattle.plan_laws.specs.Turned.{is_named, turned_codes, turned_lines};
ghost use Rattle.plan_periods.specs.FitPlans.{IsFitDuty, IsFitPlan};
ghost use Rattle.plan_by_names.specs.ByNames.{all_of, by_names, by_staff, lines_of, of_staff};

use model_rosters::{List, Memory};
use plan_laws::{Activity, NamedLines, PeriodDuty};
use plan_meaning::{Duty, Plan, Staff};
use plan_periods::{period_activities, period_duty};
use std::alloc::Global;
use text_lines::put;

// Says whether a duty line is one of a duty name.
fn is_named(duty: &Duty, name: &[u8]) -> bool
    ensures { result ≡ is_named (Some name.now) duty.now }
{
    duty.name.as_slice() == name
}

// Returns the duty lines of a duty name in numbers of periods.
fn lines_of(
    alloc: Global,
    plan: &Plan,
    activities: &[Activity],
    name: &[u8],
) -> Result<List<PeriodDuty>, Memory>
    requires some { 1 ≤ plan.now.day.minutes }
    requires fit { All (IsFitDuty plan.now) plan.now.duties }
    requires all { activities.now ≡ turned_codes plan.now }
    ensures { IfOk result (λ lines. lines ≡ turned_lines plan.now (Some name.now)) }
{
    let mut lines = List::new(alloc);
    for duty in plan.duties.as_slice() {
        if is_named(duty, name) {
            lines.push(period_duty(alloc, plan, activities, duty)?)?;
        }
    }
    Ok(lines)
}

// Returns all duty lines in numbers of periods.
fn all_lines(
    alloc: Global,
    plan: &Plan,
    activities: &[Activity],
) -> Result<List<PeriodDuty>, Memory>
    requires some { 1 ≤ plan.now.day.minutes }
    requires fit { All (IsFitDuty plan.now) plan.now.duties }
    requires all { activities.now ≡ turned_codes plan.now }
    ensures { IfOk result (λ lines. lines ≡ turned_lines plan.now None) }
{
    let mut lines = List::new(alloc);
    for duty in plan.duties.as_slice() {
        lines.push(period_duty(alloc, plan, activities, duty)?)?;
    }
    Ok(lines)
}

// Adds the lines of a duty name.
fn add_name(
    alloc: Global,
    plan: &Plan,
    activities: &[Activity],
    name: &[u8],
    all: &mut List<NamedLines>,
) -> Result<(), Memory>
    requires some { 1 ≤ plan.now.day.minutes }
    requires fit { All (IsFitDuty plan.now) plan.now.duties }
    requires codes { activities.now ≡ turned_codes plan.now }
    ensures { OnOk result (all.new ≡ all.old ++ lines_of plan.now name.now ∷ []) }
{
    let lines = lines_of(alloc, plan, activities, name)?;
    let mut copy = List::new(alloc);
    put(&mut copy, name)?;
    all.push(NamedLines { name: copy, lines })
}

// Adds the lines of a staff line's duty name, where it has one.
fn add_staff(
    alloc: Global,
    plan: &Plan,
    activities: &[Activity],
    staff: &Staff,
    all: &mut List<NamedLines>,
) -> Result<(), Memory>
    requires some { 1 ≤ plan.now.day.minutes }
    requires fit { All (IsFitDuty plan.now) plan.now.duties }
    requires codes { activities.now ≡ turned_codes plan.now }
    ensures { OnOk result (all.new ≡ all.old ++ of_staff plan.now staff.now.name) }
{
    match &staff.name {
        Some(name) => add_name(alloc, plan, activities, name.as_slice(), all),
        None => Ok(()),
    }
}

// Returns the lines of the duty names of staff lines.
fn by_staff(alloc: Global, plan: &Plan, activities: &[Activity]) -> Result<List<NamedLines>, Memory>
    requires some { 1 ≤ plan.now.day.minutes }
    requires fit { All (IsFitDuty plan.now) plan.now.duties }
    requires codes { activities.now ≡ turned_codes plan.now }
    ensures { IfOk result (λ all. all ≡ by_staff plan.now plan.now.staff) }
{
    let mut all = List::new(alloc);
    for line in plan.staff.as_slice() {
        add_staff(alloc, plan, activities, line, &mut all)?;
    }
    Ok(all)
}

// Adds all lines under no name, where there are none yet.
fn or_all(
    alloc: Global,
    plan: &Plan,
    activities: &[Activity],
    all: &mut List<NamedLines>,
) -> Result<(), Memory>
    requires some { 1 ≤ plan.now.day.minutes }
    requires fit { All (IsFitDuty plan.now) plan.now.duties }
    requires codes { activities.now ≡ turned_codes plan.now }
    requires none { all.old ≡ [] }
    ensures { OnOk result (all.new ≡ all_of plan.now ∷ []) }
{
    let lines = all_lines(alloc, plan, activities)?;
    let name = List::new(alloc);
    all.push(NamedLines { name, lines })
}

/// Returns the duty names of the staff lines, in their order, each with its duty lines in numbers of periods;
/// where no staff line has a name, all duty lines under none.
///
/// # Errors
///
/// `Memory` where memory runs out.
pub fn by_names(alloc: Global, plan: &Plan) -> Result<List<NamedLines>, Memory>
    requires { IsFitPlan plan.now }
    ensures { IfOk result (λ all. all ≡ by_names plan.now) }
{
    let activities = period_activities(alloc, plan)?;
    let mut all = by_staff(alloc, plan, activities.as_slice())?;
    if all.is_empty() {
        or_all(alloc, plan, activities.as_slice(), &mut all)?;
    }
    Ok(all)
}
