//! Names and letters as numbers, and the rules with these.

ghost use Rattle.std.specs.Prelude.{◌≡◌, ◌≤◌, ◌++◌, length, map, IfErr, IfOk, OnOk};
ghost use Rattle.plan_laws.specs.Named.{all_rules, to_rule, to_sym};
ghost use Rattle.plan_names.specs.Gathered.{place};
ghost use Rattle.plan_names.specs.Same.{same};
ghost use Rattle.plan_names.specs.Views.{kind_of, rule_of, symbol_of};
ghost use Rattle.plan_names.specs.WrittenFor.{written_for};
ghost use Rattle.plan_rules.specs.Others.{IsOther};
ghost use Rattle.plan_rules.specs.Grammars.{code_place, numbers_of};

use crate::fault::WriteFault;
use model_rosters::{CodeDef, List, Memory, Rule, Sym};
use plan_laws::{NamedLines, PeriodPlan};
use plan_names::{NameRule, RuleName, RuleSymbol, rules_of, same_name};
use std::alloc::Global;

/// Returns the place of a name among the names, from 0; behind all where it is none of them.
pub(crate) fn place_of(names: &[RuleName<'_>], name: RuleName<'_>) -> u8
    requires { length names.now ≤ 100 }
    ensures { result ≡ place same (kind_of name.entry) (map kind_of names.now) }
{
    let mut number = 0_u8;
    for other in names {
        if same_name(name, *other) {
            return number;
        }
        number += 1;
    }
    number
}

// Returns the place of a letter's code, from 0; behind all where there is none.
fn code_place(codes: &[CodeDef], letter: u8) -> u8
    requires { length codes.now ≤ 100 }
    ensures { result ≡ code_place letter codes.now }
{
    let mut number = 0_u8;
    for code in codes {
        if code.byte == letter {
            return number;
        }
        number += 1;
    }
    number
}

// Returns a symbol as a number.
fn number_of(codes: &[CodeDef], names: &[RuleName<'_>], symbol: RuleSymbol<'_>) -> Sym
    requires codes { length codes.now ≤ 100 }
    requires names { length names.now ≤ 100 }
    ensures { result ≡ to_sym (numbers_of codes.now (map kind_of names.now)) (symbol_of symbol.entry) }
{
    match symbol {
        RuleSymbol::Coded(letter) => Sym::Code(code_place(codes, letter)),
        RuleSymbol::Named(name) => Sym::Name(place_of(names, name)),
    }
}

// Returns a right side as numbers.
fn numbers_of(
    alloc: Global,
    codes: &[CodeDef],
    names: &[RuleName<'_>],
    right: &[RuleSymbol<'_>],
) -> Result<List<Sym>, Memory>
    requires codes { length codes.now ≤ 100 }
    requires names { length names.now ≤ 100 }
    ensures { IfOk result (λ numbers. numbers
        ≡ map (to_sym (numbers_of codes.now (map kind_of names.now))) (map symbol_of right.now)) }
{
    let mut numbers = List::new(alloc);
    for symbol in right {
        numbers.push(number_of(codes, names, *symbol))?;
    }
    Ok(numbers)
}

// Returns a rule of a name with its symbols as numbers.
fn numbered_rule(
    alloc: Global,
    codes: &[CodeDef],
    names: &[RuleName<'_>],
    name: RuleName<'_>,
    rule: &NameRule<'_>,
) -> Result<Rule, Memory>
    requires codes { length codes.now ≤ 100 }
    requires names { length names.now ≤ 100 }
    ensures { IfOk result (λ own. own ≡ to_rule (numbers_of codes.now (map kind_of names.now))
        (kind_of name.entry) (rule_of rule.now)) }
{
    let right = numbers_of(alloc, codes, names, rule.right.as_slice())?;
    Ok(Rule {
        left: place_of(names, name),
        cost: rule.cost,
        right,
        span: rule.span,
        first: rule.first,
        last: rule.last,
    })
}

// Appends the rules of a name with their symbols as numbers.
fn add_numbered(
    alloc: Global,
    codes: &[CodeDef],
    names: &[RuleName<'_>],
    name: RuleName<'_>,
    rules: &[NameRule<'_>],
    all: &mut List<Rule>,
) -> Result<(), Memory>
    requires codes { length codes.now ≤ 100 }
    requires names { length names.now ≤ 100 }
    ensures { OnOk result (all.new ≡ all.old ++ map (to_rule (numbers_of codes.now (map kind_of names.now))
        (kind_of name.entry)) (map rule_of rules.now)) }
{
    for rule in rules {
        all.push(numbered_rule(alloc, codes, names, name, rule)?)?;
    }
    Ok(())
}

// Appends the rules of a name, with their symbols as numbers.
fn add_name_rules(
    alloc: Global,
    plan: &PeriodPlan,
    staff: &[NamedLines],
    codes: &[CodeDef],
    names: &[RuleName<'_>],
    name: RuleName<'_>,
    all: &mut List<Rule>,
) -> Result<(), WriteFault>
    requires codes { length codes.now ≤ 100 }
    requires names { length names.now ≤ 100 }
    ensures is { OnOk result (all.new ≡ all.old ++ map (to_rule (numbers_of codes.now (map kind_of names.now))
        (kind_of name.entry)) (written_for plan.now staff.now (kind_of name.entry))) }
    ensures other { IfErr result IsOther }
{
    let rules = rules_of(alloc, plan, staff, name)?;
    add_numbered(alloc, codes, names, name, rules.as_slice(), all)?;
    Ok(())
}

/// Returns the rules of all names, with their symbols as numbers, in order.
pub(crate) fn all_rules(
    alloc: Global,
    plan: &PeriodPlan,
    staff: &[NamedLines],
    codes: &[CodeDef],
    names: &[RuleName<'_>],
) -> Result<List<Rule>, WriteFault>
    requires codes { length codes.now ≤ 100 }
    requires names { length names.now ≤ 100 }
    ensures is { IfOk result (λ all. all ≡ all_rules (numbers_of codes.now (map kind_of names.now))
        (written_for plan.now staff.now) (map kind_of names.now)) }
    ensures other { IfErr result IsOther }
{
    let mut all = List::new(alloc);
    for name in names {
        add_name_rules(alloc, plan, staff, codes, names, *name, &mut all)?;
    }
    Ok(all)
}
