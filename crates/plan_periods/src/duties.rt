//! Activities, parts and duty lines in numbers of periods.

ghost use Rattle.std.specs.Prelude.{◌≡◌, ◌≤◌, ◌++◌, ◌∷◌, [], All, IfOk, OnOk, map};
ghost use Rattle.plan_meaning.specs.Shifts.{stretch_of};
ghost use Rattle.plan_laws.specs.Names.{chosen};
ghost use Rattle.plan_laws.specs.Turned.{
  coded,
  has_code,
  turned_code,
  turned_codes,
  turned_duty,
  turned_pause,
  turned_part,
};
ghost use Rattle.plan_periods.specs.FitPlans.{AreFitBegins, IsFitCode, IsFitDuty, IsFitPart};

use crate::numbers::{begins, ends, pause_begins, per_period, window_of};
use model_rosters::{List, Memory};
use plan_laws::{Activity, PeriodDuty, PeriodPart};
use plan_meaning::{Duty, Lengths, Part, Plan, PlanCode, Times};
use std::alloc::Global;

// Returns a code with its lengths as numbers of periods and what a period costs.
fn activity(plan: &Plan, code: &PlanCode) -> Activity
    requires some { 1 ≤ plan.now.day.minutes }
    requires fit { IsFitCode plan.now code.now }
    ensures { result ≡ turned_code plan.now code.now }
{
    let lasts = window_of(plan, code.lasts);
    Activity {
        code: code.code,
        work: code.work,
        least: lasts.lo,
        greatest: lasts.hi,
        amount: per_period(plan, code.hour),
    }
}

// Returns codes with their lengths as numbers of periods.
fn activities_of(alloc: Global, plan: &Plan, codes: &[PlanCode]) -> Result<List<Activity>, Memory>
    requires some { 1 ≤ plan.now.day.minutes }
    requires fit { All (IsFitCode plan.now) codes.now }
    ensures { IfOk result (λ all. all ≡ map (turned_code plan.now) codes.now) }
{
    let mut all = List::new(alloc);
    for code in codes {
        all.push(activity(plan, code))?;
    }
    Ok(all)
}

/// Returns the codes of work and the pauses of a plan.
///
/// # Errors
///
/// `Memory` where memory runs out.
pub fn period_activities(alloc: Global, plan: &Plan) -> Result<List<Activity>, Memory>
    requires some { 1 ≤ plan.now.day.minutes }
    requires fit { All (IsFitCode plan.now) plan.now.codes }
    ensures { IfOk result (λ all. all ≡ turned_codes plan.now) }
{
    activities_of(alloc, plan, plan.codes.as_slice())
}

// Says whether the activity's code is one of these.
fn has_code(codes: &[u8], activity: &Activity) -> bool
    ensures { result ≡ has_code codes.now activity.now }
{
    codes.iter().any(|code| *code == activity.code)
}

// Appends an activity whose code is among these.
fn add_chosen(set: &mut List<Activity>, codes: &[u8], activity: &Activity) -> Result<(), Memory>
    ensures { OnOk result (set.new ≡ set.old ++ chosen (has_code codes.now) (activity.now ∷ [])) }
{
    if has_code(codes, activity) {
        set.push(*activity)?;
        return Ok(());
    }
    Ok(())
}

// Returns the activities whose codes are among these.
fn set_of(alloc: Global, activities: &[Activity], codes: &[u8]) -> Result<List<Activity>, Memory>
    ensures { IfOk result (λ set. set ≡ chosen (has_code codes.now) activities.now) }
{
    let mut set = List::new(alloc);
    for activity in activities {
        add_chosen(&mut set, codes, activity)?;
    }
    Ok(set)
}

// Returns the first activity of a code; one that lasts no period where there is none.
fn coded(activities: &[Activity], code: u8) -> Activity
    ensures { result ≡ coded activities.now code }
{
    for activity in activities {
        if activity.code == code {
            return *activity;
        }
    }
    Activity {
        code,
        work: false,
        least: 0,
        greatest: 0,
        amount: 0,
    }
}

// Returns a pause, and the periods that it may begin in, where the line says so.
fn pausing(plan: &Plan, activities: &[Activity], code: u8, times: Option<Times>) -> PeriodPart
    requires some { 1 ≤ plan.now.day.minutes }
    requires fit { AreFitBegins plan.now times }
    ensures { result ≡ PeriodPart.Pausing (coded activities.now code) (turned_pause plan.now times) }
{
    PeriodPart::Pausing(coded(activities, code), pause_begins(plan, times))
}

// Returns a part of a duty.
fn part_of(
    alloc: Global,
    plan: &Plan,
    activities: &[Activity],
    part: &Part,
) -> Result<PeriodPart, Memory>
    requires some { 1 ≤ plan.now.day.minutes }
    requires fit { IsFitPart plan.now part.now }
    requires all { activities.now ≡ turned_codes plan.now }
    ensures { IfOk result (λ own. own ≡ turned_part plan.now part.now) }
{
    match part {
        Part::Work(codes) => Ok(PeriodPart::Working(set_of(alloc, activities, codes.as_slice())?)),
        Part::Pause(code, times) => Ok(pausing(plan, activities, *code, *times)),
    }
}

// Returns the parts of a duty in order.
fn parts_of(
    alloc: Global,
    plan: &Plan,
    activities: &[Activity],
    parts: &[Part],
) -> Result<List<PeriodPart>, Memory>
    requires some { 1 ≤ plan.now.day.minutes }
    requires fit { All (IsFitPart plan.now) parts.now }
    requires all { activities.now ≡ turned_codes plan.now }
    ensures { IfOk result (λ own. own ≡ map (turned_part plan.now) parts.now) }
{
    let mut own = List::new(alloc);
    for part in parts {
        own.push(part_of(alloc, plan, activities, part)?)?;
    }
    Ok(own)
}

// Returns how long a duty's stretches last: as its line says, else as the plan has it.
fn stretch_of(plan: &Plan, duty: &Duty) -> Lengths
    ensures { result ≡ stretch_of plan.now duty.now }
{
    match duty.stretch {
        Some(range) => range,
        None => plan.stretch,
    }
}

/// Returns a duty line in numbers of periods.
///
/// # Errors
///
/// `Memory` where memory runs out.
pub fn period_duty(
    alloc: Global,
    plan: &Plan,
    activities: &[Activity],
    duty: &Duty,
) -> Result<PeriodDuty, Memory>
    requires some { 1 ≤ plan.now.day.minutes }
    requires fit { IsFitDuty plan.now duty.now }
    requires all { activities.now ≡ turned_codes plan.now }
    ensures { IfOk result (λ own. own ≡ turned_duty plan.now duty.now) }
{
    let parts = parts_of(alloc, plan, activities, duty.parts.as_slice())?;
    Ok(PeriodDuty {
        length: window_of(plan, duty.lasts),
        cost: duty.cost,
        parts,
        begin: begins(plan, duty.begins),
        end: ends(plan, duty.ends),
        stretch: window_of(plan, stretch_of(plan, duty)),
        plus: per_period(plan, duty.plus),
    })
}
