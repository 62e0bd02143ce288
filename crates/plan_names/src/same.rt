//! Names and rules compared.

ghost use Rattle.std.specs.Prelude.{◌≡◌, map};
ghost use Rattle.plan_names.specs.Same.{same, same_rule, same_symbol};
ghost use Rattle.plan_names.specs.Views.{kind_of, rule_of, symbol_of};
ghost use lib.Pointwise.{pointwise};

use crate::names::RuleName;
use crate::rule::{NameRule, RuleSymbol};
use crate::shape::{same_shape, shape};

/// Says whether two names are the same.
pub fn same_name(one: RuleName<'_>, two: RuleName<'_>) -> bool
    ensures { result ≡ same (kind_of one.entry) (kind_of two.entry) }
{
    same_shape(shape(one), shape(two))
}

// Says whether two symbols are the same.
fn same_symbol(one: RuleSymbol<'_>, two: RuleSymbol<'_>) -> bool
    ensures { result ≡ same_symbol (symbol_of one.entry) (symbol_of two.entry) }
{
    match (one, two) {
        (RuleSymbol::Coded(one), RuleSymbol::Coded(two)) => one == two,
        (RuleSymbol::Named(one), RuleSymbol::Named(two)) => same_name(one, two),
        (RuleSymbol::Coded(_), RuleSymbol::Named(_)) => false,
        (RuleSymbol::Named(_), RuleSymbol::Coded(_)) => false,
    }
}

// Says whether two right sides are the same.
fn same_right(one: &[RuleSymbol<'_>], two: &[RuleSymbol<'_>]) -> bool
    ensures { result ≡ pointwise same_symbol (map symbol_of one.now) (map symbol_of two.now) }
{
    if one.len() != two.len() {
        return false;
    }
    for place in 0..one.len() {
        if !same_symbol(one[place], two[place]) {
            return false;
        }
    }
    true
}

/// Says whether two rules are the same.
pub fn same_rule(one: &NameRule<'_>, two: &NameRule<'_>) -> bool
    ensures { result ≡ same_rule (rule_of one.now) (rule_of two.now) }
{
    one.cost == two.cost
        && same_right(one.right.as_slice(), two.right.as_slice())
        && one.span == two.span
        && one.first == two.first
        && one.last == two.last
}
