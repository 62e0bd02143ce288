//! The rules of any name.

ghost use Rattle.std.specs.Prelude.{◌≡◌, map, IfOk};
ghost use Rattle.plan_names.specs.Views.{kind_of, rule_of};
ghost use Rattle.plan_names.specs.StartNames.{start_kind};
ghost use Rattle.plan_names.specs.WrittenFor.{written_for};

use crate::blocks::{block_rules, run_rules};
use crate::days::{any_day_rules, day_rules, duty_rules};
use crate::fault::RuleFault;
use crate::letters::letter_rules;
use crate::lists::{any_rules, free_rules, from_rules, other_rules, touch_rules};
use crate::names::RuleName;
use crate::off::{lead_rules, off_rules, step_rules, steps_rules};
use crate::rule::NameRule;
use crate::stretches::{rest_rules, stretch_rules};
use model_rosters::List;
use plan_laws::{NamedLines, PeriodPlan};
use std::alloc::Global;

/// Returns the rules of a name, in order; duty lines that come to equal rules have one.
///
/// # Errors
///
/// `TooDear` where a letter costs 2^32 units or more in some period, `Memory` where memory runs out.
pub fn rules_of<'a>(
    alloc: Global,
    plan: &PeriodPlan,
    staff: &'a [NamedLines],
    name: RuleName<'a>,
) -> Result<List<NameRule<'a>>, RuleFault>
    ensures { IfOk result (λ rules. map rule_of rules
        ≡ written_for plan.now staff.now (kind_of name.entry)) }
{
    match name {
        RuleName::Letter(plus, activity) => letter_rules(alloc, plan, plus, &activity),
        RuleName::Run(plus, activity) => Ok(run_rules(alloc, plus, activity)?),
        RuleName::Block(plus, activity) => Ok(block_rules(alloc, plus, activity)?),
        RuleName::FreeBlock(plus, set) => Ok(free_rules(alloc, plan, staff, plus, set)?),
        RuleName::AnyList(plus, set) => Ok(any_rules(alloc, plan, staff, plus, set)?),
        RuleName::OpenList(plus, set) => Ok(touch_rules(alloc, plan, plus, set)?),
        RuleName::ListFrom(plus, set, one) => Ok(from_rules(alloc, plan, plus, set, one)?),
        RuleName::OtherList(plus, set, one) => Ok(other_rules(alloc, plan, staff, plus, set, one)?),
        RuleName::Stretch(plus, set, range) => Ok(stretch_rules(alloc, plan, plus, set, range)?),
        RuleName::Rest(plus, pause, times) => Ok(rest_rules(alloc, plus, pause, times)?),
        RuleName::Off => Ok(off_rules(alloc, plan)?),
        RuleName::Step => Ok(step_rules(alloc, plan)?),
        RuleName::Steps => Ok(steps_rules(alloc)?),
        RuleName::Lead => Ok(lead_rules(alloc, plan)?),
        RuleName::Duty(named) => Ok(duty_rules(alloc, plan, named)?),
        RuleName::Day(named) => Ok(day_rules(alloc, plan, named)?),
        RuleName::AnyDay(all) => Ok(any_day_rules(alloc, all)?),
    }
}

/// Returns the name at which all rules start: the day of the lines, where they stand under no name, else a
/// day of any of the duty names.
pub fn start_name(staff: &[NamedLines]) -> RuleName<'_>
    ensures { kind_of result ≡ start_kind staff.now }
{
    match staff {
        [named] => {
            if named.name.is_empty() {
                RuleName::Day(named)
            } else {
                RuleName::AnyDay(staff)
            }
        }
        _ => RuleName::AnyDay(staff),
    }
}
