//! The rules of stretches and of rests.

ghost use Rattle.std.specs.Prelude.{◌≡◌, ◌++◌, ◌+◌, ◌-◌, ℕ, map, IfOk, OnOk, true, false};
ghost use Rattle.plan_laws.specs.Names.{
  block_rule,
  change_in,
  has_few,
  length_rule,
  opened,
  rest_rules,
  work_rules,
};
ghost use Rattle.plan_names.specs.Rules.{block_long};
ghost use Rattle.plan_names.specs.Views.{rule_of};

use crate::names::RuleName;
use crate::rule::NameRule;
use crate::symbols::{WHOLE, add_rule, copies, one, only, plain};
use model_rosters::{List, Memory, Window};
use plan_laws::{Activity, PeriodPlan};
use std::alloc::Global;

// Returns what a change costs within a set; none where no activity changes, as within a set of one.
fn change_in(plan: &PeriodPlan, set: &[Activity]) -> Option<u32>
    ensures { result ≡ change_in plan.now set.now }
{
    if set.len() == 1 {
        return None;
    }
    plan.change
}

// Returns the rules of a stretch of one block.
fn block_stretches<'a>(
    alloc: Global,
    plus: u32,
    set: &[Activity],
    range: Window,
) -> Result<List<NameRule<'a>>, Memory>
    ensures { IfOk result (λ rules. map rule_of rules ≡ map (block_long plus range) set.now) }
{
    let mut rules = List::new(alloc);
    for activity in set {
        let right = one(alloc, RuleName::Block(plus, *activity))?;
        add_rule(
            &mut rules,
            NameRule {
                span: range,
                ..plain(0, right)
            },
        )?;
    }
    Ok(rules)
}

/// Returns the rules of a stretch: a list of blocks, or one block where no activity changes.
///
/// # Errors
///
/// `Memory` where memory runs out.
pub(crate) fn stretch_rules<'a>(
    alloc: Global,
    plan: &PeriodPlan,
    plus: u32,
    set: &'a [Activity],
    range: Window,
) -> Result<List<NameRule<'a>>, Memory>
    ensures { IfOk result (λ rules. map rule_of rules
        ≡ work_rules plus (change_in plan.now set.now) set.now range) }
{
    if change_in(plan, set).is_none() {
        return block_stretches(alloc, plus, set, range);
    }
    let right = one(alloc, RuleName::AnyList(plus, set))?;
    only(
        alloc,
        NameRule {
            span: range,
            ..plain(0, right)
        },
    )
}

// Returns the window of times, or the open one.
fn opened(times: Option<Window>) -> Window
    ensures { result ≡ opened times }
{
    match times {
        Some(window) => window,
        None => WHOLE,
    }
}

// Says whether a pause has few lengths, which a rule can have.
fn has_few(pause: &Activity) -> bool
    ensures { result ≡ has_few pause.now }
{
    pause.greatest.saturating_sub(pause.least) <= 3 && pause.greatest <= 8
}

// Returns the rule of a rest of a length.
fn length_rule<'a>(
    alloc: Global,
    plus: u32,
    pause: Activity,
    times: Option<Window>,
    length: u8,
) -> Result<NameRule<'a>, Memory>
    ensures { IfOk result (λ rule. rule_of rule ≡ length_rule plus pause times length) }
{
    let right = copies(alloc, length, RuleName::Letter(plus, pause))?;
    Ok(NameRule {
        first: opened(times),
        ..plain(0, right)
    })
}

// Returns a rule for each length of a rest.
fn length_rules<'a>(
    alloc: Global,
    plus: u32,
    pause: Activity,
    times: Option<Window>,
) -> Result<List<NameRule<'a>>, Memory>
    requires { has_few pause ≡ true }
    ensures { IfOk result (λ rules. map rule_of rules ≡ rest_rules plus true pause times) }
{
    let mut rules = List::new(alloc);
    let lengths = pause.greatest.saturating_sub(pause.least) + 1;
    for more in 0..lengths {
        let rule = length_rule(alloc, plus, pause, times, pause.least + more)?;
        add_rule(&mut rules, rule)?;
    }
    Ok(rules)
}

/// Returns the rules of a rest: one for each of its lengths, or a block where these are many or long.
///
/// # Errors
///
/// `Memory` where memory runs out.
pub(crate) fn rest_rules<'a>(
    alloc: Global,
    plus: u32,
    pause: Activity,
    times: Option<Window>,
) -> Result<List<NameRule<'a>>, Memory>
    ensures { IfOk result (λ rules. map rule_of rules ≡ rest_rules plus (has_few pause) pause times) }
{
    if has_few(&pause) {
        return length_rules(alloc, plus, pause, times);
    }
    let right = one(alloc, RuleName::Block(plus, pause))?;
    only(
        alloc,
        NameRule {
            first: opened(times),
            ..plain(0, right)
        },
    )
}
