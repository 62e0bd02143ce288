//! Rules that are the same.

ghost use Rattle.std.specs.Prelude.{◌≡◌, ◌<◌, ◌↔◌, IsTrue, length};
ghost use Rattle.tree_findings.specs.Findings.{StandsBefore};

use model_rosters::{Grammar, Rule, Sym};

// Whether two symbols are the same.
fn is_same_symbol(symbol: Sym, other: Sym) -> bool
    ensures { IsTrue result ↔ (symbol ≡ other) }
{
    match (symbol, other) {
        (Sym::Code(code), Sym::Code(same)) => code == same,
        (Sym::Name(name), Sym::Name(same)) => name == same,
        _ => false,
    }
}

// Whether two right sides are the same.
fn is_same_right(right: &[Sym], other: &[Sym]) -> bool
    ensures { IsTrue result ↔ (right.now ≡ other.now) }
{
    if right.len() != other.len() {
        return false;
    }
    for place in 0..right.len() {
        if !is_same_symbol(right[place], other[place]) {
            return false;
        }
    }
    true
}

// Whether two rules are the same.
fn is_same(rule: &Rule, other: &Rule) -> bool
    ensures { IsTrue result ↔ (rule.now ≡ other.now) }
{
    rule.left == other.left
        && rule.cost == other.cost
        && is_same_right(rule.right.as_slice(), other.right.as_slice())
        && rule.span == other.span
        && rule.first == other.first
        && rule.last == other.last
}

/// Returns whether an earlier rule is the same as that at a place.
pub(crate) fn stands_before(grammar: &Grammar, place: usize) -> bool
    requires { place < length grammar.now.rules }
    ensures { IsTrue result ↔ StandsBefore grammar.now place }
{
    let rules = grammar.rules.as_slice();
    let rule = &rules[place];
    for earlier in 0..place {
        if is_same(&rules[earlier], rule) {
            return true;
        }
    }
    false
}
