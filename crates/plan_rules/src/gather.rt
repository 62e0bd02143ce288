//! The names that the rules of a plan need, and how many rules these have.

ghost use Rattle.std.specs.Prelude.{◌≡◌, ◌<◌, ◌+◌, [], ◌∷◌, ◌++◌, length, map, nat_le, take, IfErr, IfOk, OnOk};
ghost use Rattle.plan_names.specs.Gathered.{has, with_all, with_new};
ghost use Rattle.plan_names.specs.Same.{same};
ghost use Rattle.plan_names.specs.Views.{kind_of, rule_of, symbol_of};
ghost use Rattle.plan_names.specs.WrittenFor.{written_for};
ghost use Rattle.plan_rules.specs.Others.{IsOther};
ghost use Rattle.plan_rules.specs.Closed.{IsClosed, count_rules, names_in, names_of_rules};

use crate::fault::WriteFault;
use model_rosters::{List, Memory};
use plan_laws::{NamedLines, PeriodPlan};
use plan_names::{NameRule, RuleName, RuleSymbol, rules_of, same_name, start_name};
use std::alloc::Global;

// Says whether a name stands among the names.
fn has_name(names: &[RuleName<'_>], name: RuleName<'_>) -> bool
    ensures { result ≡ has same (kind_of name.entry) (map kind_of names.now) }
{
    for other in names {
        if same_name(name, *other) {
            return true;
        }
    }
    false
}

// Appends a name that is new.
fn add_new<'a>(names: &mut List<RuleName<'a>>, name: RuleName<'a>) -> Result<(), Memory>
    ensures { OnOk result (map kind_of names.new
        ≡ with_new same (map kind_of names.old) (kind_of name.entry)) }
{
    if has_name(names.as_slice(), name) {
        return Ok(());
    }
    names.push(name)
}

// Appends a symbol's name, if it is a new one.
fn add_symbol<'a>(names: &mut List<RuleName<'a>>, symbol: RuleSymbol<'a>) -> Result<(), Memory>
    ensures { OnOk result (map kind_of names.new
        ≡ with_all same (map kind_of names.old) (names_in (symbol_of symbol.entry ∷ []))) }
{
    match symbol {
        RuleSymbol::Coded(_) => Ok(()),
        RuleSymbol::Named(name) => add_new(names, name),
    }
}

// Appends the new names of a right side.
fn add_right<'a>(names: &mut List<RuleName<'a>>, right: &[RuleSymbol<'a>]) -> Result<(), Memory>
    ensures { OnOk result (map kind_of names.new
        ≡ with_all same (map kind_of names.old) (names_in (map symbol_of right.now))) }
{
    for symbol in right {
        add_symbol(names, *symbol)?;
    }
    Ok(())
}

// Appends the new names of a rule.
fn add_rule<'a>(names: &mut List<RuleName<'a>>, rule: &NameRule<'a>) -> Result<(), Memory>
    ensures { OnOk result (map kind_of names.new
        ≡ with_all same (map kind_of names.old) (names_in (map symbol_of rule.now.right))) }
{
    add_right(names, rule.right.as_slice())
}

// Appends the new names of some rules.
fn add_rules<'a>(names: &mut List<RuleName<'a>>, rules: &[NameRule<'a>]) -> Result<(), Memory>
    ensures { OnOk result (map kind_of names.new
        ≡ with_all same (map kind_of names.old) (names_of_rules (map rule_of rules.now))) }
{
    for rule in rules {
        add_rule(names, rule)?;
    }
    Ok(())
}

// Returns the name at a place.
fn name_at<'a>(names: &List<RuleName<'a>>, place: usize) -> RuleName<'a>
    requires { place < length names.now }
    ensures { take (place + 1) (map kind_of names.now)
        ≡ take place (map kind_of names.now) ++ kind_of result ∷ [] }
{
    names.as_slice()[place]
}

// Says whether a place is behind all names.
fn is_past(names: &List<RuleName<'_>>, place: usize) -> bool
    ensures { result ≡ nat_le (length names.now) place }
{
    names.len() <= place
}

// Appends the new names of the rules of a name.
fn add_needed<'a>(
    alloc: Global,
    plan: &PeriodPlan,
    staff: &'a [NamedLines],
    name: RuleName<'a>,
    names: &mut List<RuleName<'a>>,
) -> Result<(), WriteFault>
    ensures is { OnOk result (map kind_of names.new ≡ with_all same (map kind_of names.old)
        (names_of_rules (written_for plan.now staff.now (kind_of name.entry)))) }
    ensures other { IfErr result IsOther }
{
    let rules = rules_of(alloc, plan, staff, name)?;
    add_rules(names, rules.as_slice())?;
    Ok(())
}

/// Returns the names that the rules need, from the name at which they start, in order of first appearance.
pub(crate) fn all_names<'a>(
    alloc: Global,
    plan: &PeriodPlan,
    staff: &'a [NamedLines],
) -> Result<List<RuleName<'a>>, WriteFault>
    ensures closed { IfOk result (λ names. IsClosed plan.now staff.now (map kind_of names)) }
    ensures other { IfErr result IsOther }
{
    let mut names = List::new(alloc);
    names.push(start_name(staff))?;
    for place in 0..usize::MAX {
        if is_past(&names, place) {
            return Ok(names);
        }
        add_needed(alloc, plan, staff, name_at(&names, place), &mut names)?;
    }
    Err(WriteFault::Memory)
}

// Returns how many rules a name has.
fn count_of(
    alloc: Global,
    plan: &PeriodPlan,
    staff: &[NamedLines],
    name: RuleName<'_>,
) -> Result<u64, WriteFault>
    ensures is { IfOk result (λ count. count ≡ length (written_for plan.now staff.now (kind_of name.entry))) }
    ensures other { IfErr result IsOther }
{
    let rules = rules_of(alloc, plan, staff, name)?;
    Ok(rules.len() as u64)
}

/// Returns how many rules the names have.
pub(crate) fn rule_count(
    alloc: Global,
    plan: &PeriodPlan,
    staff: &[NamedLines],
    names: &[RuleName<'_>],
) -> Result<u64, WriteFault>
    ensures is { IfOk result (λ count. count ≡ count_rules plan.now staff.now (map kind_of names.now)) }
    ensures other { IfErr result IsOther }
{
    let mut count = 0_u64;
    for name in names {
        let more = count_of(alloc, plan, staff, *name)?;
        let Some(sum) = count.checked_add(more) else {
            return Err(WriteFault::Memory);
        };
        count = sum;
    }
    Ok(count)
}
