//! The rules text of a plan.

ghost use Rattle.std.specs.Prelude.{IfErr, IfOk};
ghost use Rattle.plan_rules.specs.Outcomes.{IsRefused};
ghost use Rattle.plan_rules.specs.RuleTexts.{IsTextOf};

use crate::fault::WriteFault;
use crate::grammar::written_rules;
use model_rosters::List;
use plan_laws::{NamedLines, PeriodPlan};
use std::alloc::Global;
use text_rules::write_rules;

/// Returns the rules text of a plan, which reads as its grammar.
///
/// # Errors
///
/// Those of [`written_rules`].
pub fn rules_text_of(
    alloc: Global,
    plan: &PeriodPlan,
    staff: &[NamedLines],
) -> Result<List<u8>, WriteFault>
    ensures text { IfOk result (λ text. IsTextOf plan.now staff.now text) }
    ensures refused { IfErr result (λ fault. IsRefused plan.now staff.now fault) }
{
    let grammar = written_rules(alloc, plan, staff)?;
    let text = write_rules(alloc, &grammar)?;
    Ok(text)
}
