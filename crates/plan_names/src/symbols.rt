//! Right sides and rules that stand everywhere.

ghost use Rattle.std.specs.Prelude.{◌≡◌, ◌++◌, [], ◌∷◌, map, IfOk, OnOk};
ghost use Rattle.plan_laws.specs.Named.{coded, named};
ghost use Rattle.plan_laws.specs.Names.{copies, dots, plain};
ghost use Rattle.plan_names.specs.Views.{kind_of, rule_of, symbol_of};

use crate::names::RuleName;
use crate::rule::{NameRule, RuleSymbol};
use model_rosters::{List, Memory, Window};
use plan_laws::PeriodPlan;
use std::alloc::Global;

/// A window that is left open: all lengths, or all periods.
pub(crate) const WHOLE: Window = Window { lo: 1, hi: 96 };

/// Returns a rule that stands everywhere.
pub(crate) fn plain(cost: u32, right: List<RuleSymbol<'_>>) -> NameRule<'_>
    ensures { rule_of result ≡ plain cost (map symbol_of right.entry) }
{
    NameRule {
        cost,
        right,
        span: WHOLE,
        first: WHOLE,
        last: WHOLE,
    }
}

/// Appends a name to a right side.
///
/// # Errors
///
/// `Memory` where memory runs out.
pub(crate) fn add_name<'a>(
    right: &mut List<RuleSymbol<'a>>,
    name: RuleName<'a>,
) -> Result<(), Memory>
    ensures { OnOk result (map symbol_of right.new
        ≡ map symbol_of right.old ++ named (kind_of name.entry) ∷ []) }
{
    right.push(RuleSymbol::Named(name))
}

// Appends a letter to a right side.
fn add_letter<'a>(right: &mut List<RuleSymbol<'a>>, code: u8) -> Result<(), Memory>
    ensures { OnOk result (map symbol_of right.new ≡ map symbol_of right.old ++ coded code ∷ []) }
{
    right.push(RuleSymbol::Coded(code))
}

/// Returns a right side of one letter.
///
/// # Errors
///
/// `Memory` where memory runs out.
pub(crate) fn letter<'a>(alloc: Global, code: u8) -> Result<List<RuleSymbol<'a>>, Memory>
    ensures { IfOk result (λ right. map symbol_of right ≡ coded code ∷ []) }
{
    let mut right = List::new(alloc);
    add_letter(&mut right, code)?;
    Ok(right)
}

/// Returns a right side of one name.
///
/// # Errors
///
/// `Memory` where memory runs out.
pub(crate) fn one<'a>(alloc: Global, name: RuleName<'a>) -> Result<List<RuleSymbol<'a>>, Memory>
    ensures { IfOk result (λ right. map symbol_of right ≡ named (kind_of name.entry) ∷ []) }
{
    let mut right = List::new(alloc);
    add_name(&mut right, name)?;
    Ok(right)
}

/// Returns a right side of two names.
///
/// # Errors
///
/// `Memory` where memory runs out.
pub(crate) fn two<'a>(
    alloc: Global,
    first: RuleName<'a>,
    second: RuleName<'a>,
) -> Result<List<RuleSymbol<'a>>, Memory>
    ensures { IfOk result (λ right. map symbol_of right
        ≡ named (kind_of first.entry) ∷ named (kind_of second.entry) ∷ []) }
{
    let mut right = one(alloc, first)?;
    add_name(&mut right, second)?;
    Ok(right)
}

/// Returns a right side of three names.
///
/// # Errors
///
/// `Memory` where memory runs out.
pub(crate) fn three<'a>(
    alloc: Global,
    first: RuleName<'a>,
    second: RuleName<'a>,
    third: RuleName<'a>,
) -> Result<List<RuleSymbol<'a>>, Memory>
    ensures { IfOk result (λ right. map symbol_of right
        ≡ named (kind_of first.entry) ∷ named (kind_of second.entry) ∷ named (kind_of third.entry) ∷ []) }
{
    let mut right = two(alloc, first, second)?;
    add_name(&mut right, third)?;
    Ok(right)
}

/// Returns a right side of a letter and a name.
///
/// # Errors
///
/// `Memory` where memory runs out.
pub(crate) fn letter_and<'a>(
    alloc: Global,
    code: u8,
    name: RuleName<'a>,
) -> Result<List<RuleSymbol<'a>>, Memory>
    ensures { IfOk result (λ right. map symbol_of right ≡ coded code ∷ named (kind_of name.entry) ∷ []) }
{
    let mut right = letter(alloc, code)?;
    add_name(&mut right, name)?;
    Ok(right)
}

/// Returns a right side of a name, so often.
///
/// # Errors
///
/// `Memory` where memory runs out.
pub(crate) fn copies<'a>(
    alloc: Global,
    count: u8,
    name: RuleName<'a>,
) -> Result<List<RuleSymbol<'a>>, Memory>
    ensures { IfOk result (λ right. map symbol_of right ≡ copies count (kind_of name.entry)) }
{
    let mut right = List::new(alloc);
    for place in 0..count {
        add_name(&mut right, name)?;
    }
    Ok(right)
}

/// Returns a right side of time off, so often.
///
/// # Errors
///
/// `Memory` where memory runs out.
pub(crate) fn dots<'a>(
    alloc: Global,
    plan: &PeriodPlan,
    count: u8,
) -> Result<List<RuleSymbol<'a>>, Memory>
    ensures { IfOk result (λ right. map symbol_of right ≡ dots plan.now count) }
{
    let mut right = List::new(alloc);
    for place in 0..count {
        add_letter(&mut right, plan.off)?;
    }
    Ok(right)
}

/// Returns a right side of time off, so often, and a name.
///
/// # Errors
///
/// `Memory` where memory runs out.
pub(crate) fn dots_and<'a>(
    alloc: Global,
    plan: &PeriodPlan,
    count: u8,
    name: RuleName<'a>,
) -> Result<List<RuleSymbol<'a>>, Memory>
    ensures { IfOk result (λ right. map symbol_of right
        ≡ dots plan.now count ++ named (kind_of name.entry) ∷ []) }
{
    let mut right = dots(alloc, plan, count)?;
    add_name(&mut right, name)?;
    Ok(right)
}

/// Appends a rule.
///
/// # Errors
///
/// `Memory` where memory runs out.
pub(crate) fn add_rule<'a>(rules: &mut List<NameRule<'a>>, rule: NameRule<'a>) -> Result<(), Memory>
    ensures { OnOk result (map rule_of rules.new ≡ map rule_of rules.old ++ rule_of rule.entry ∷ []) }
{
    rules.push(rule)
}

/// Returns the list of one rule.
///
/// # Errors
///
/// `Memory` where memory runs out.
pub(crate) fn only<'a>(alloc: Global, rule: NameRule<'a>) -> Result<List<NameRule<'a>>, Memory>
    ensures { IfOk result (λ rules. map rule_of rules ≡ rule_of rule.entry ∷ []) }
{
    let mut rules = List::new(alloc);
    add_rule(&mut rules, rule)?;
    Ok(rules)
}
