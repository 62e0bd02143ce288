//! The draft.

ghost use Rattle.std.specs.Prelude.{◌≡◌, ◌≤◌, All, length, IfOk};
ghost use Rattle.plan_words.specs.Days.{IsSoundDay};
ghost use Rattle.plan_demand.specs.Demands.{draft_of, IsSmallNeed};

use crate::needs::{bounds, needs};
use crate::side::Side;
use crate::teams::{groups, heads};
use model_rosters::{Grammar, Memory};
use plan_meaning::{Forecast, Plan};
use std::alloc::Global;
use text_demand_lines::Draft;

/// Returns what a demand text of a plan and its forecast would say.
///
/// # Errors
///
/// `Memory` where memory runs out.
pub fn plan_draft(
    alloc: Global,
    grammar: &Grammar,
    plan: &Plan,
    forecast: &Forecast,
) -> Result<Draft, Memory>
    requires codes { length grammar.now.codes ≤ 32 }
    requires names { length grammar.now.names ≤ 32 }
    requires day { IsSoundDay plan.now.day }
    requires step { 1 ≤ forecast.now.step }
    requires small { All (IsSmallNeed plan.now) plan.now.needs }
    ensures { IfOk result (λ d. d ≡ draft_of grammar.now plan.now forecast.now) }
{
    let groups = groups(alloc, grammar, plan.staff.as_slice())?;
    let needs = needs(alloc, grammar, plan, forecast)?;
    let least = bounds(alloc, grammar, plan, forecast, Side::Least)?;
    let most = bounds(alloc, grammar, plan, forecast, Side::Most)?;
    Ok(Draft {
        heads: heads(plan.staff.as_slice()),
        groups,
        needs,
        least,
        most,
    })
}
