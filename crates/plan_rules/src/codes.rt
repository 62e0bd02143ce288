//! The codes of the rules of a plan.

ghost use Rattle.std.specs.Prelude.{◌≡◌, ◌++◌, [], ◌∷◌, IfOk, OnOk};
ghost use Rattle.plan_rules.specs.Grammars.{codes_of, plan_codes};

use model_rosters::{CodeDef, List, Memory};
use plan_laws::{Activity, PeriodPlan};
use std::alloc::Global;

// Appends the code of an activity where it is work, or where it is none, as is asked.
fn add_code(codes: &mut List<CodeDef>, work: bool, activity: &Activity) -> Result<(), Memory>
    ensures { OnOk result (codes.new ≡ codes.old ++ codes_of work (activity.now ∷ [])) }
{
    if activity.work != work {
        return Ok(());
    }
    codes.push(CodeDef {
        byte: activity.code,
        work,
    })
}

// Appends the codes of the activities that are work, or of those that are none, as is asked.
fn add_codes(codes: &mut List<CodeDef>, work: bool, activities: &[Activity]) -> Result<(), Memory>
    ensures { OnOk result (codes.new ≡ codes.old ++ codes_of work activities.now) }
{
    for activity in activities {
        add_code(codes, work, activity)?;
    }
    Ok(())
}

/// Returns the codes: those of work, time off, and those of pauses.
pub(crate) fn plan_codes(alloc: Global, plan: &PeriodPlan) -> Result<List<CodeDef>, Memory>
    ensures { IfOk result (λ codes. codes ≡ plan_codes plan.now) }
{
    let mut codes = List::new(alloc);
    add_codes(&mut codes, true, plan.activities.as_slice())?;
    codes.push(CodeDef {
        byte: plan.off,
        work: false,
    })?;
    add_codes(&mut codes, false, plan.activities.as_slice())?;
    Ok(codes)
}
