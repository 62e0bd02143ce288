//! What letters cost, and the rules of letters.

ghost use Rattle.std.specs.Prelude.{◌≡◌, ◌+◌, ◌-◌, ◌++◌, ◌&&◌, [], ◌∷◌, cond, nat_eq, nat_le, map, IfOk, IfSome, OnOk};
ghost use Rattle.model_rosters.specs.Folds.{sum_n};
ghost use Rattle.plan_laws.specs.Names.{at_rule, spell_window, spells_of};
ghost use Rattle.plan_laws.specs.PeriodShifts.{letter_cost, plus_of};
ghost use Rattle.plan_laws.specs.Spells.{spells};
ghost use Rattle.plan_names.specs.LetterCosts.{activity_cost, extra_cost};
ghost use Rattle.plan_names.specs.SpellRuns.{GrowsTo, merged, spell_of};
ghost use Rattle.plan_names.specs.Views.{rule_of};

use crate::fault::RuleFault;
use crate::rule::NameRule;
use crate::symbols::{WHOLE, add_rule, letter};
use model_rosters::{List, Memory, Window};
use plan_laws::{Activity, PeriodExtra, PeriodPlan};
use std::alloc::Global;

/// Periods in which an activity costs the same.
#[derive(Clone, Copy, Drop)]
pub(crate) struct CostRun {
    lo: u8,
    hi: u8,
    cost: u32,
}

/// Returns what of a line's plus an activity has: all where it is paid, else nothing.
pub(crate) fn plus_of(plus: u32, activity: &Activity) -> u32
    ensures { result ≡ plus_of plus activity.now }
{
    if activity.work || activity.amount != 0 {
        plus
    } else {
        0
    }
}

// Returns what an activity adds to the cost of a letter.
fn activity_cost(activity: &Activity, plus: u32, code: u8) -> Option<u32>
    ensures { IfSome result (λ c. c ≡ activity_cost plus code activity.now) }
{
    if activity.code != code {
        return Some(0);
    }
    activity.amount.checked_add(plus_of(plus, activity))
}

// Returns what activities add to the cost of a letter.
fn activities_cost(activities: &[Activity], plus: u32, code: u8) -> Option<u32>
    ensures { IfSome result (λ c. c ≡ sum_n (activity_cost plus code) activities.now) }
{
    let mut sum = 0_u32;
    for activity in activities {
        sum = sum.checked_add(activity_cost(activity, plus, code)?)?;
    }
    Some(sum)
}

// Returns what a line of extras adds to the cost of a letter in a period.
fn extra_cost(extra: &PeriodExtra, code: u8, period: u8) -> u32
    ensures { result ≡ extra_cost code period extra.now }
{
    if extra.code == code && extra.periods.lo <= period && period <= extra.periods.hi {
        extra.amount
    } else {
        0
    }
}

// Returns what extras add to the cost of a letter in a period.
fn extras_cost(extras: &[PeriodExtra], code: u8, period: u8) -> Option<u32>
    ensures { IfSome result (λ c. c ≡ sum_n (extra_cost code period) extras.now) }
{
    let mut sum = 0_u32;
    for extra in extras {
        sum = sum.checked_add(extra_cost(extra, code, period))?;
    }
    Some(sum)
}

// Returns the sum of two costs; none where it is 2^32 or more.
fn sum_of(one: u32, two: u32) -> Option<u32>
    ensures { IfSome result (λ sum. sum ≡ one + two) }
{
    one.checked_add(two)
}

// Returns what the plan's activities add to the cost of a letter.
fn base_cost(plan: &PeriodPlan, plus: u32, code: u8) -> Option<u32>
    ensures { IfSome result (λ c. c ≡ sum_n (activity_cost plus code) plan.now.activities) }
{
    activities_cost(plan.activities.as_slice(), plus, code)
}

// Returns what the plan's extras add to the cost of a letter in a period.
fn added_cost(plan: &PeriodPlan, code: u8, period: u8) -> Option<u32>
    ensures { IfSome result (λ c. c ≡ sum_n (extra_cost code period) plan.now.extras) }
{
    extras_cost(plan.extras.as_slice(), code, period)
}

// Returns what a letter costs in a period, by a line of this plus; none where that is 2^32 or more.
fn letter_cost(plan: &PeriodPlan, plus: u32, code: u8, period: u8) -> Option<u32>
    ensures { IfSome result (λ c. c ≡ letter_cost plan.now plus code period) }
{
    let base = base_cost(plan, plus, code)?;
    let more = added_cost(plan, code, period)?;
    sum_of(base, more)
}

// Returns the run of one period.
fn run_of(plan: &PeriodPlan, plus: u32, code: u8, period: u8) -> Result<CostRun, RuleFault>
    ensures { IfOk result (λ run. spell_of run
        ≡ record { lo = period; hi = period; cost = letter_cost plan.now plus code period }) }
{
    let Some(cost) = letter_cost(plan, plus, code, period) else {
        return Err(RuleFault::TooDear);
    };
    Ok(CostRun {
        lo: period,
        hi: period,
        cost,
    })
}

// Returns the window of a run: open where it is the whole day.
fn run_window(plan: &PeriodPlan, run: CostRun) -> Window
    ensures { result ≡ spell_window plan.now (spell_of run) }
{
    if run.lo == 1 && run.hi == plan.periods {
        WHOLE
    } else {
        Window {
            lo: run.lo,
            hi: run.hi,
        }
    }
}

// Appends the rule of a letter in a run of periods.
fn add_run<'a>(
    alloc: Global,
    plan: &PeriodPlan,
    activity: &Activity,
    run: CostRun,
    rules: &mut List<NameRule<'a>>,
) -> Result<(), Memory>
    ensures { OnOk result (map rule_of rules.new
        ≡ map rule_of rules.old ++ at_rule plan.now activity.now (spell_of run) ∷ []) }
{
    let right = letter(alloc, activity.code)?;
    add_rule(
        rules,
        NameRule {
            cost: run.cost,
            right,
            span: WHOLE,
            first: run_window(plan, run),
            last: WHOLE,
        },
    )
}

// Returns the run with the next one behind it, where both cost the same; else appends the run's rule and
// returns the next one.
fn grown<'a>(
    alloc: Global,
    plan: &PeriodPlan,
    activity: &Activity,
    run: CostRun,
    next: CostRun,
    rules: &mut List<NameRule<'a>>,
) -> Result<CostRun, Memory>
    ensures { IfOk result (λ last. GrowsTo plan.now activity.now run next last
        (map rule_of rules.old) (map rule_of rules.new)) }
{
    if next.cost == run.cost {
        return Ok(CostRun {
            lo: run.lo,
            hi: next.hi,
            cost: run.cost,
        });
    }
    add_run(alloc, plan, activity, run, rules)?;
    Ok(next)
}

/// Returns the rules of a letter: one for each of the greatest runs of periods in which it costs the same.
///
/// # Errors
///
/// `Memory` where memory runs out, `TooDear` where a cost is beyond a rule's.
pub(crate) fn letter_rules<'a>(
    alloc: Global,
    plan: &PeriodPlan,
    plus: u32,
    activity: &Activity,
) -> Result<List<NameRule<'a>>, RuleFault>
    ensures { IfOk result (λ rules. map rule_of rules
        ≡ map (at_rule plan.now activity.now) (spells_of plan.now plus activity.now)) }
{
    let mut rules = List::new(alloc);
    if plan.periods == 0 {
        return Ok(rules);
    }
    let mut run = run_of(plan, plus, activity.code, 1)?;
    for behind in 1..plan.periods {
        let next = run_of(plan, plus, activity.code, behind + 1)?;
        run = grown(alloc, plan, activity, run, next, &mut rules)?;
    }
    add_run(alloc, plan, activity, run, &mut rules)?;
    Ok(rules)
}
