//! The rules of time off.

ghost use Rattle.std.specs.Prelude.{◌≡◌, map, IfOk};
ghost use Rattle.plan_laws.specs.Names.{lead_kind, lead_rules};
ghost use Rattle.plan_names.specs.Rules.{off_rules, step_rules, steps_rules};
ghost use Rattle.plan_names.specs.Views.{kind_of, rule_of};

use crate::names::RuleName;
use crate::rule::NameRule;
use crate::symbols::{add_rule, dots, dots_and, letter, letter_and, one, only, plain, two};
use model_rosters::{List, Memory};
use plan_laws::PeriodPlan;
use std::alloc::Global;

/// Returns the rules of time off.
///
/// # Errors
///
/// `Memory` where memory runs out.
pub(crate) fn off_rules<'a>(alloc: Global, plan: &PeriodPlan) -> Result<List<NameRule<'a>>, Memory>
    ensures { IfOk result (λ rules. map rule_of rules ≡ off_rules plan.now) }
{
    let mut rules = only(alloc, plain(0, letter(alloc, plan.off)?))?;
    let more = letter_and(alloc, plan.off, RuleName::Off)?;
    add_rule(&mut rules, plain(0, more))?;
    Ok(rules)
}

/// Returns the rule of time off from one start to the next.
///
/// # Errors
///
/// `Memory` where memory runs out.
pub(crate) fn step_rules<'a>(alloc: Global, plan: &PeriodPlan) -> Result<List<NameRule<'a>>, Memory>
    ensures { IfOk result (λ rules. map rule_of rules ≡ step_rules plan.now) }
{
    let right = dots(alloc, plan, plan.starts)?;
    only(alloc, plain(0, right))
}

/// Returns the rules of time off from a start to a later one.
///
/// # Errors
///
/// `Memory` where memory runs out.
pub(crate) fn steps_rules<'a>(alloc: Global) -> Result<List<NameRule<'a>>, Memory>
    ensures { IfOk result (λ rules. map rule_of rules ≡ steps_rules) }
{
    let mut rules = only(alloc, plain(0, one(alloc, RuleName::Step)?))?;
    let more = two(alloc, RuleName::Step, RuleName::Steps)?;
    add_rule(&mut rules, plain(0, more))?;
    Ok(rules)
}

/// Returns the rules of time off before a duty.
///
/// # Errors
///
/// `Memory` where memory runs out.
pub(crate) fn lead_rules<'a>(alloc: Global, plan: &PeriodPlan) -> Result<List<NameRule<'a>>, Memory>
    ensures { IfOk result (λ rules. map rule_of rules ≡ lead_rules plan.now plan.now.first_start) }
{
    if plan.first_start == 0 {
        let right = one(alloc, RuleName::Steps)?;
        return only(alloc, plain(0, right));
    }
    let mut rules = only(alloc, plain(0, dots(alloc, plan, plan.first_start)?))?;
    let more = dots_and(alloc, plan, plan.first_start, RuleName::Steps)?;
    add_rule(&mut rules, plain(0, more))?;
    Ok(rules)
}

/// Returns the name of time off before a duty: any, where duties may begin with any period; whole steps,
/// where the first period is a start.
pub(crate) fn lead_name<'a>(plan: &PeriodPlan) -> RuleName<'a>
    ensures { kind_of result ≡ lead_kind plan.now }
{
    if plan.first_start != 0 || plan.starts == 0 {
        return RuleName::Lead;
    }
    if plan.starts == 1 {
        RuleName::Off
    } else {
        RuleName::Steps
    }
}
