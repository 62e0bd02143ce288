//! The rules of lists of blocks.

ghost use Rattle.std.specs.Prelude.{◌≡◌, ◌++◌, map, IfOk, OnOk};
ghost use Rattle.plan_laws.specs.Names.{
  any_rules,
  block_rule,
  chosen,
  from_rule,
  is_bound,
  open_rules,
  others as other_codes,
  rules_for,
  touch_rules,
};
ghost use Rattle.plan_names.specs.FreeCodes.{free_of};
ghost use Rattle.plan_names.specs.Rules.{from_rules};
ghost use Rattle.plan_names.specs.Views.{rule_of};

use crate::free::{bound_ones, change_cost, free_ones, others};
use crate::names::RuleName;
use crate::rule::NameRule;
use crate::symbols::{add_rule, one, only, plain, two};
use model_rosters::{List, Memory};
use plan_laws::{Activity, NamedLines, PeriodPlan};
use std::alloc::Global;

// Appends a rule for a block of each activity.
fn add_blocks<'a>(
    alloc: Global,
    plus: u32,
    some: &[Activity],
    rules: &mut List<NameRule<'a>>,
) -> Result<(), Memory>
    ensures { OnOk result (map rule_of rules.new ≡ map rule_of rules.old ++ map (block_rule plus) some.now) }
{
    for activity in some {
        let right = one(alloc, RuleName::Block(plus, *activity))?;
        add_rule(rules, plain(0, right))?;
    }
    Ok(())
}

// Appends a rule for the lists that begin with each activity.
fn add_lists<'a>(
    alloc: Global,
    plus: u32,
    set: &'a [Activity],
    some: &[Activity],
    rules: &mut List<NameRule<'a>>,
) -> Result<(), Memory>
    ensures { OnOk result (map rule_of rules.new
        ≡ map rule_of rules.old ++ map (from_rule plus set.now) some.now) }
{
    for activity in some {
        let right = one(alloc, RuleName::ListFrom(plus, set, *activity))?;
        add_rule(rules, plain(0, right))?;
    }
    Ok(())
}

/// Returns the rules of a block of a free activity.
///
/// # Errors
///
/// `Memory` where memory runs out.
pub(crate) fn free_rules<'a>(
    alloc: Global,
    plan: &PeriodPlan,
    staff: &[NamedLines],
    plus: u32,
    set: &[Activity],
) -> Result<List<NameRule<'a>>, Memory>
    ensures { IfOk result (λ rules. map rule_of rules
        ≡ map (block_rule plus) (chosen (free_of plan.now staff.now plus set.now) set.now)) }
{
    let mut rules = List::new(alloc);
    let free = free_ones(alloc, plan, staff, plus, set)?;
    add_blocks(alloc, plus, free.as_slice(), &mut rules)?;
    Ok(rules)
}

/// Returns the rules of a block of a free activity with any list behind it or none.
///
/// # Errors
///
/// `Memory` where memory runs out.
pub(crate) fn touch_rules<'a>(
    alloc: Global,
    plan: &PeriodPlan,
    plus: u32,
    set: &'a [Activity],
) -> Result<List<NameRule<'a>>, Memory>
    ensures { IfOk result (λ rules. map rule_of rules ≡ touch_rules plan.now plus set.now) }
{
    let block = RuleName::FreeBlock(plus, set);
    let mut rules = only(alloc, plain(0, one(alloc, block)?))?;
    let more = two(alloc, block, RuleName::AnyList(plus, set))?;
    add_rule(&mut rules, plain(change_cost(plan), more))?;
    Ok(rules)
}

// Returns the rule of lists that begin with a free activity, where there is one.
fn open_rules<'a>(
    alloc: Global,
    plus: u32,
    set: &'a [Activity],
    free: &[Activity],
) -> Result<List<NameRule<'a>>, Memory>
    ensures { IfOk result (λ rules. map rule_of rules ≡ open_rules plus set.now free.now) }
{
    if free.is_empty() {
        return Ok(List::new(alloc));
    }
    let right = one(alloc, RuleName::OpenList(plus, set))?;
    only(alloc, plain(0, right))
}

/// Returns the rules of a list of blocks.
///
/// # Errors
///
/// `Memory` where memory runs out.
pub(crate) fn any_rules<'a>(
    alloc: Global,
    plan: &PeriodPlan,
    staff: &[NamedLines],
    plus: u32,
    set: &'a [Activity],
) -> Result<List<NameRule<'a>>, Memory>
    ensures { IfOk result (λ rules. map rule_of rules
        ≡ any_rules plan.now plus set.now
        (chosen (free_of plan.now staff.now plus set.now) set.now)
        (chosen (is_bound (free_of plan.now staff.now) plus set.now) set.now)) }
{
    let bound = bound_ones(alloc, plan, staff, plus, set, set)?;
    if bound.is_empty() {
        return touch_rules(alloc, plan, plus, set);
    }
    let free = free_ones(alloc, plan, staff, plus, set)?;
    let mut rules = open_rules(alloc, plus, set, free.as_slice())?;
    add_lists(alloc, plus, set, bound.as_slice(), &mut rules)?;
    Ok(rules)
}

/// Returns the rules of a list that begins with an activity.
///
/// # Errors
///
/// `Memory` where memory runs out.
pub(crate) fn from_rules<'a>(
    alloc: Global,
    plan: &PeriodPlan,
    plus: u32,
    set: &'a [Activity],
    activity: Activity,
) -> Result<List<NameRule<'a>>, Memory>
    ensures { IfOk result (λ rules. map rule_of rules ≡ from_rules plan.now plus set.now activity) }
{
    let block = RuleName::Block(plus, activity);
    let mut rules = only(alloc, plain(0, one(alloc, block)?))?;
    let more = two(alloc, block, RuleName::OtherList(plus, set, activity))?;
    add_rule(&mut rules, plain(change_cost(plan), more))?;
    Ok(rules)
}

/// Returns the rules of a list that begins with another activity.
///
/// # Errors
///
/// `Memory` where memory runs out.
pub(crate) fn other_rules<'a>(
    alloc: Global,
    plan: &PeriodPlan,
    staff: &[NamedLines],
    plus: u32,
    set: &'a [Activity],
    activity: Activity,
) -> Result<List<NameRule<'a>>, Memory>
    ensures { IfOk result (λ rules. map rule_of rules
        ≡ open_rules plus set.now (chosen (free_of plan.now staff.now plus set.now) set.now)
        ++ map (from_rule plus set.now)
        (chosen (is_bound (free_of plan.now staff.now) plus set.now) (other_codes activity set.now))) }
{
    let free = free_ones(alloc, plan, staff, plus, set)?;
    let mut rules = open_rules(alloc, plus, set, free.as_slice())?;
    let some = others(alloc, activity, set)?;
    let bound = bound_ones(alloc, plan, staff, plus, set, some.as_slice())?;
    add_lists(alloc, plus, set, bound.as_slice(), &mut rules)?;
    Ok(rules)
}
