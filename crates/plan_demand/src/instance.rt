//! The instance.

ghost use Rattle.std.specs.Prelude.{◌≡◌, ◌≤◌, All, IfOk};
ghost use Rattle.model_rosters.specs.Sound.{IsPlain, IsSound};
ghost use Rattle.model_rosters.specs.SoundInstance.{IsSoundInstance};
ghost use Rattle.plan_words.specs.Days.{IsSoundDay};
ghost use Rattle.text_demand_lines.specs.Steps.{Reads};
ghost use Rattle.text_demand.specs.Drafts.{IsDraft};
ghost use Rattle.plan_demand.specs.Demands.{IsSmallNeed, demand_of, draft_of};

use crate::draft::plan_draft;
use model_rosters::{Grammar, Instance};
use plan_meaning::{Forecast, Plan};
use std::alloc::Global;
use text_demand::{DemandFault, finish};

/// Makes the instance of a plan and its forecast, for the grammar of the plan's rules: one team, or a group for
/// each staff line with a name; for each need line what a period of a missing and of a needless employee costs,
/// and in each period the number of the step that holds it, with a floor of 0 and a ceiling of 64 where no
/// column says one.
///
/// # Errors
///
/// `NoHeads` where the plan has no staff line. `Memory` may come at any time.
pub fn plan_instance(
    alloc: Global,
    grammar: Grammar,
    plan: &Plan,
    forecast: &Forecast,
) -> Result<Instance, DemandFault>
    requires sound { IsSound grammar }
    requires plain { IsPlain grammar }
    requires day { IsSoundDay plan.now.day }
    requires step { 1 ≤ forecast.now.step }
    requires small { All (IsSmallNeed plan.now) plan.now.needs }
    requires draft { IsDraft grammar (draft_of grammar plan.now forecast.now) }
    ensures value { Reads (λ i. i) result (demand_of grammar plan.now forecast.now) }
    ensures sound { IfOk result IsSoundInstance }
{
    let draft = plan_draft(alloc, &grammar, plan, forecast)?;
    finish(alloc, grammar, draft)
}
