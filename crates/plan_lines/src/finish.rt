//! The plan that all lines make.

ghost use Rattle.std.specs.Prelude.{◌≡◌, IfOk};
ghost use Rattle.plan_faults.specs.declared.fault.PlanFault.TheVariants.{NoLine};
ghost use Rattle.plan_lines.specs.Plans.{
  Reads,
  draft_said,
  duty_staffed,
  finish,
  has_work,
  lines_said,
  listed,
  plan_from,
  staff_names,
  staffed,
  without_staff,
};

use crate::reading::Reading;
use crate::staff::{has_staff, has_unnamed};
use model_rosters::{List, Memory};
use plan_faults::{Kind, LineFault, PlanFault, StaffFault};
use plan_fields::{Draft, copy};
use plan_meaning::{Duty, Lengths, Plan, PlanCode, PlanDay, Staff};
use std::alloc::Global;

// The fault of a text without a line of a kind.
fn no_line(kind: Kind) -> PlanFault
    ensures { result ≡ NoLine kind }
{
    PlanFault::NoLine { kind }
}

// Whether there is a code of work.
fn has_work(codes: &[PlanCode]) -> bool
    ensures { result ≡ has_work codes.now }
{
    codes.iter().any(|line| line.work)
}

/// What each plan has to say, and cannot be read off a list.
#[derive(Clone, Copy, Drop)]
pub(crate) struct Said {
    pub(crate) day: PlanDay,
    pub(crate) change: Option<u32>,
    pub(crate) stretch: Lengths,
}

// Gives back what lines say, where the lists of duties, of staff and of needs have lines.
#[tactic(auto, unfolding(crate::specs::Plans::listed))]
fn listed(draft: &Draft, said: Said) -> Result<Said, PlanFault>
    ensures { result ≡ listed draft.now said }
{
    if draft.duties.is_empty() {
        return Err(no_line(Kind::Duty));
    }
    if draft.staff.is_empty() {
        return Err(no_line(Kind::Staff));
    }
    if draft.needs.is_empty() {
        return Err(no_line(Kind::Need));
    }
    Ok(said)
}

// Takes what lines behind the day line have to say, or tells of the first that is missing.
#[tactic(auto, unfolding(crate::specs::Plans::draft_said))]
fn draft_said(draft: &Draft, day: PlanDay) -> Result<Said, PlanFault>
    ensures { result ≡ draft_said draft.now day }
{
    if !has_work(draft.codes.as_slice()) {
        return Err(no_line(Kind::Work));
    }
    let Some(change) = draft.change else {
        return Err(no_line(Kind::Change));
    };
    let Some(stretch) = draft.stretch else {
        return Err(no_line(Kind::Stretch));
    };
    let said = Said {
        day,
        change,
        stretch,
    };
    listed(draft, said)
}

// Takes what lines have to say, or tells of the first that is missing.
#[tactic(auto, unfolding(crate::specs::Plans::lines_said))]
fn lines_said(reading: &Reading) -> Result<Said, PlanFault>
    ensures { result ≡ lines_said reading.now }
{
    match &reading.day {
        Some(day) => draft_said(&reading.draft, day.plan()),
        None => Err(no_line(Kind::Day)),
    }
}

// Returns the names of staff lines that have one.
fn staff_names(alloc: Global, staff: &[Staff]) -> Result<List<List<u8>>, Memory>
    ensures { IfOk result (λ names. names ≡ staff_names staff.now) }
{
    let mut names = List::new(alloc);
    for line in staff {
        if let Some(name) = &line.name {
            names.push(copy(alloc, name.as_slice())?)?;
        }
    }
    Ok(names)
}

// Returns the fault of a duty without a staff line.
fn without_staff(alloc: Global, staff: &[Staff], duty: &Duty) -> Result<PlanFault, Memory>
    ensures { IfOk result (λ fault. fault ≡ without_staff staff.now duty.now) }
{
    let name = copy(alloc, duty.name.as_slice())?;
    let named = staff_names(alloc, staff)?;
    Ok(PlanFault::Line {
        line: duty.line,
        fault: LineFault::Staff {
            fault: StaffFault::Missing { name, named },
        },
    })
}

// Checks that a duty has a staff line, where staff lines have names.
#[tactic(auto, unfolding(crate::specs::Plans::duty_staffed))]
fn duty_staffed(alloc: Global, staff: &[Staff], duty: &Duty) -> Result<(), PlanFault>
    ensures { Reads (λ u. u) result (duty_staffed staff.now duty.now) }
{
    if has_unnamed(staff) || has_staff(staff, duty.name.as_slice()) {
        return Ok(());
    }
    Err(without_staff(alloc, staff, duty)?)
}

// Checks that each duty has a staff line, where staff lines have names.
fn staffed(alloc: Global, staff: &[Staff], duties: &[Duty]) -> Result<(), PlanFault>
    ensures { Reads (λ u. u) result (staffed staff.now duties.now) }
{
    for duty in duties {
        duty_staffed(alloc, staff, duty)?;
    }
    Ok(())
}

// Makes the plan of what all lines say.
fn plan_from(title: List<u8>, draft: Draft, said: Said) -> Plan
    ensures { result ≡ plan_from title draft said }
{
    let Draft {
        money,
        codes,
        extras,
        starts,
        duties,
        staff,
        needs,
        ..
    } = draft;
    Plan {
        title,
        day: said.day,
        money,
        codes,
        extras,
        change: said.change,
        stretch: said.stretch,
        starts,
        duties,
        staff,
        needs,
    }
}

/// Makes the plan of what all lines say.
///
/// # Errors
///
/// The first kind of line that is missing, then the first duty without a staff line; `Memory` where memory
/// runs out.
#[tactic(auto, unfolding(crate::specs::Plans::finish))]
pub(crate) fn finish(alloc: Global, reading: Reading) -> Result<Plan, PlanFault>
    ensures { Reads (λ p. p) result (finish reading) }
{
    let said = lines_said(&reading)?;
    let draft = &reading.draft;
    staffed(alloc, draft.staff.as_slice(), draft.duties.as_slice())?;
    let Reading { title, draft, .. } = reading;
    Ok(plan_from(title, draft, said))
}
