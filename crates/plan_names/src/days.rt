//! The rules of duties and of days.

ghost use Rattle.std.specs.Prelude.{◌≡◌, ◌++◌, [], map, nat_eq, IfOk, OnOk};
ghost use Rattle.plan_laws.specs.Names.{
  day_rule,
  duty_rule,
  early_days,
  kept_rule,
  kind_of as part_kind,
  leaves,
  rest_kind,
  symbols_of,
};
ghost use Rattle.plan_laws.specs.PeriodShifts.{plus_of};
ghost use Rattle.plan_names.specs.DayRules.{day_rules};
ghost use Rattle.plan_names.specs.Gathered.{has, with_all, with_new};
ghost use Rattle.plan_names.specs.Same.{same_rule};
ghost use Rattle.plan_names.specs.Views.{kind_of, rule_of, symbol_of};

use crate::cases::leaves;
use crate::letters::plus_of;
use crate::names::RuleName;
use crate::off::lead_name;
use crate::rule::{NameRule, RuleSymbol};
use crate::same::same_rule;
use crate::symbols::{add_name, add_rule, one, plain, three, two};
use model_rosters::{List, Memory, Window};
use plan_laws::{Activity, NamedLines, PeriodDuty, PeriodPart, PeriodPlan};
use std::alloc::Global;

// Returns the name of a rest: its letter, where it has one period and no times.
fn rest_name<'a>(plus: u32, pause: Activity, times: Option<Window>) -> RuleName<'a>
    ensures { kind_of result ≡ rest_kind plus pause times (nat_eq pause.greatest 1) }
{
    if times.is_none() && pause.greatest == 1 {
        RuleName::Letter(plus, pause)
    } else {
        RuleName::Rest(plus, pause, times)
    }
}

// Returns the name of a part of a duty.
fn part_name<'a>(plus: u32, range: Window, part: &'a PeriodPart) -> RuleName<'a>
    ensures { kind_of result ≡ part_kind plus range part.now }
{
    match part {
        PeriodPart::Working(set) => RuleName::Stretch(plus, set.as_slice(), range),
        PeriodPart::Pausing(pause, times) => rest_name(plus_of(plus, pause), *pause, *times),
    }
}

// Returns the names of the parts of a duty in order.
fn part_names<'a>(
    alloc: Global,
    plus: u32,
    range: Window,
    parts: &'a [PeriodPart],
) -> Result<List<RuleSymbol<'a>>, Memory>
    ensures { IfOk result (λ right. map symbol_of right ≡ symbols_of plus range parts.now) }
{
    let mut right = List::new(alloc);
    for part in parts {
        add_name(&mut right, part_name(plus, range, part))?;
    }
    Ok(right)
}

// Returns the rule of a duty line.
fn duty_rule<'a>(
    alloc: Global,
    plan: &PeriodPlan,
    line: &'a PeriodDuty,
) -> Result<NameRule<'a>, Memory>
    ensures { IfOk result (λ rule. rule_of rule ≡ duty_rule plan.now line.now) }
{
    let right = part_names(alloc, line.plus, line.stretch, line.parts.as_slice())?;
    Ok(NameRule {
        cost: line.cost,
        right,
        span: line.length,
        first: line.begin,
        last: line.end,
    })
}

// Says whether a rule stands among the rules.
fn has_rule(rules: &[NameRule<'_>], rule: &NameRule<'_>) -> bool
    ensures { result ≡ has same_rule (rule_of rule.now) (map rule_of rules.now) }
{
    for other in rules {
        if same_rule(rule, other) {
            return true;
        }
    }
    false
}

// Appends a rule that is new.
fn add_new<'a>(rules: &mut List<NameRule<'a>>, rule: NameRule<'a>) -> Result<(), Memory>
    ensures { OnOk result (map rule_of rules.new
        ≡ with_new same_rule (map rule_of rules.old) (rule_of rule.entry)) }
{
    if has_rule(rules.as_slice(), &rule) {
        return Ok(());
    }
    add_rule(rules, rule)
}

// Returns the rules of duty lines, those that are equal once.
fn line_rules<'a>(
    alloc: Global,
    plan: &PeriodPlan,
    lines: &'a [PeriodDuty],
) -> Result<List<NameRule<'a>>, Memory>
    ensures { IfOk result (λ rules. map rule_of rules
        ≡ with_all same_rule [] (map (duty_rule plan.now) lines.now)) }
{
    let mut rules = List::new(alloc);
    for line in lines {
        let rule = duty_rule(alloc, plan, line)?;
        add_new(&mut rules, rule)?;
    }
    Ok(rules)
}

/// Returns the rules of a duty: one for each line, those that are equal once.
///
/// # Errors
///
/// `Memory` where memory runs out.
pub(crate) fn duty_rules<'a>(
    alloc: Global,
    plan: &PeriodPlan,
    named: &'a NamedLines,
) -> Result<List<NameRule<'a>>, Memory>
    ensures { IfOk result (λ rules. map rule_of rules
        ≡ with_all same_rule [] (map (duty_rule plan.now) named.now.lines)) }
{
    line_rules(alloc, plan, named.lines.as_slice())
}

// Appends a rule where it is to be kept.
fn add_kept<'a>(
    rules: &mut List<NameRule<'a>>,
    keep: bool,
    rule: NameRule<'a>,
) -> Result<(), Memory>
    ensures { OnOk result (map rule_of rules.new
        ≡ map rule_of rules.old ++ kept_rule keep (rule_of rule.entry)) }
{
    if keep {
        return add_rule(rules, rule);
    }
    Ok(())
}

// Appends the rules of days that begin with a duty, where the first period is a start.
fn add_early<'a>(
    alloc: Global,
    plan: &PeriodPlan,
    named: &'a NamedLines,
    rules: &mut List<NameRule<'a>>,
) -> Result<(), Memory>
    ensures { OnOk result (map rule_of rules.new ≡ map rule_of rules.old
        ++ early_days plan.now plan.now.first_start named.now.name named.now.lines) }
{
    if plan.first_start != 0 {
        return Ok(());
    }
    let lines = named.lines.as_slice();
    let alone = one(alloc, RuleName::Duty(named))?;
    add_kept(rules, leaves(plan, lines, true, true), plain(0, alone))?;
    let before = two(alloc, RuleName::Duty(named), RuleName::Off)?;
    add_kept(rules, leaves(plan, lines, true, false), plain(0, before))
}

/// Returns the rules of a day: a duty with time off before it, behind it, on both sides or on none, as the
/// lines leave it.
///
/// # Errors
///
/// `Memory` where memory runs out.
pub(crate) fn day_rules<'a>(
    alloc: Global,
    plan: &PeriodPlan,
    named: &'a NamedLines,
) -> Result<List<NameRule<'a>>, Memory>
    ensures { IfOk result (λ rules. map rule_of rules ≡ day_rules plan.now named.now) }
{
    let mut rules = List::new(alloc);
    let lines = named.lines.as_slice();
    let lead = lead_name(plan);
    let behind = two(alloc, lead, RuleName::Duty(named))?;
    add_kept(
        &mut rules,
        leaves(plan, lines, false, true),
        plain(0, behind),
    )?;
    let between = three(alloc, lead, RuleName::Duty(named), RuleName::Off)?;
    add_kept(
        &mut rules,
        leaves(plan, lines, false, false),
        plain(0, between),
    )?;
    add_early(alloc, plan, named, &mut rules)?;
    Ok(rules)
}

/// Returns the rules of a day of any of some duty names.
///
/// # Errors
///
/// `Memory` where memory runs out.
pub(crate) fn any_day_rules<'a>(
    alloc: Global,
    staff: &'a [NamedLines],
) -> Result<List<NameRule<'a>>, Memory>
    ensures { IfOk result (λ rules. map rule_of rules ≡ map day_rule staff.now) }
{
    let mut rules = List::new(alloc);
    for named in staff {
        let right = one(alloc, RuleName::Day(named))?;
        add_rule(&mut rules, plain(0, right))?;
    }
    Ok(rules)
}
