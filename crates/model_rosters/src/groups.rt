//! Whether an instance is that of groups.

ghost use Rattle.std.specs.Prelude.{
  ℕ,
  ◌≡◌,
  ◌≢◌,
  ◌≤◌,
  ◌<◌,
  ◌+◌,
  ◌*◌,
  ◌↔◌,
  ◌∷◌,
  [],
  All,
  IsTrue,
  Some,
  length,
  map,
  slice_get,
};
ghost use Rattle.model_rosters.specs.Extension.{any_window, group_rule};
ghost use Rattle.model_rosters.specs.Folds.{sum_n};
ghost use Rattle.model_rosters.specs.GroupParts.{
  EndsWithAdded,
  IsSymbolBelow,
  IsRuleBelow,
  LeadToGroups,
  HasGroupRules,
  HasGroupParts,
};
ghost use Rattle.model_rosters.specs.Names.{added_name};
ghost use Rattle.model_rosters.specs.Sound.{IsSound};
ghost use Rattle.model_rosters.specs.SoundInstance.{IsGroup, AreGroups, IsGroupedBy};

use crate::grammar::{Grammar, Rule, Sym, Window};
use crate::instance::{Group, Instance};
use crate::list::List;

/// The window that contains every length and every period.
const ANY: Window = Window { lo: 1, hi: 96 };

/// Returns whether the instance is that of a sound grammar of a rules text and of groups of its
/// names. Which start that grammar had does not matter.
pub(crate) fn is_grouped(instance: &Instance) -> bool
    requires sound { IsSound instance.now.grammar }
    requires some { 1 ≤ length instance.now.groups }
    ensures { IsTrue result ↔ ((g : Grammar) × IsGroupedBy instance.now g) }
{
    has_group_parts(instance)
}

/// Returns whether the grammar ends with the added name and with the rules of the groups, these
/// are sound, and the instance's head counts are their sums.
fn has_group_parts(instance: &Instance) -> bool
    ensures { IsTrue result ↔ HasGroupParts instance.now }
{
    let grammar = &instance.grammar;
    let groups = instance.groups.as_slice();
    ends_with_added(grammar)
        && are_groups(groups, grammar.start as usize)
        && have_heads(instance)
        && is_extended(grammar, groups)
}

/// Returns whether the last name is the added one and the start.
fn ends_with_added(grammar: &Grammar) -> bool
    ensures { IsTrue result ↔ EndsWithAdded grammar.now }
{
    let start = grammar.start as usize;
    match grammar.names.as_slice().get(start) {
        Some(name) => start + 1 == grammar.names.len() && is_added(name),
        None => false,
    }
}

/// Says whether a name is the one that groups add, `*`.
fn is_added(name: &List<u8>) -> bool
    ensures { IsTrue result ↔ (name.now ≡ added_name) }
{
    name.as_slice() == b"*".as_slice()
}

/// Returns whether there are at most 8 groups, of different ones of the names.
fn are_groups(groups: &[Group], names: usize) -> bool
    ensures { IsTrue result ↔ AreGroups names groups.now }
{
    groups.len() <= 8 && groups.iter().all(|group| is_group(group, names)) && are_apart(groups)
}

/// Says whether a group has a name of these and head counts that may be.
fn is_group(group: &Group, names: usize) -> bool
    ensures { IsTrue result ↔ IsGroup names group.now }
{
    (group.name as usize) < names && group.heads_min <= group.heads_max && 1 <= group.heads_max
}

/// Returns whether no two groups have one name.
fn are_apart(groups: &[Group]) -> bool
    ensures { IsTrue result ↔ ((i j : ℕ) (a b : Group) → i < j → slice_get groups.now i ≡ Some a
        → slice_get groups.now j ≡ Some b → a.name ≢ b.name) }
{
    for (j, later) in groups.iter().enumerate() {
        for group in &groups[..j] {
            if group.name == later.name {
                return false;
            }
        }
    }
    true
}

/// Returns whether the instance's head counts are the sums over its groups.
fn have_heads(instance: &Instance) -> bool
    requires { length instance.now.groups ≤ 8 }
    ensures { IsTrue result
        ↔ ((instance.now.heads_min ≡ sum_n (λ (g : Group). g.heads_min) instance.now.groups)
        × (instance.now.heads_max ≡ sum_n (λ (g : Group). g.heads_max) instance.now.groups)) }
{
    let groups = instance.groups.as_slice();
    u64::from(instance.heads_min) == least_heads(groups)
        && u64::from(instance.heads_max) == most_heads(groups)
}

/// Returns the least numbers of employees of the groups, at most eight, together.
pub fn least_heads(groups: &[Group]) -> u64
    requires { length groups.now ≤ 8 }
    ensures { result ≡ sum_n (λ (g : Group). g.heads_min) groups.now }
{
    let mut sum = 0;
    for group in groups {
        sum += u64::from(group.heads_min);
    }
    sum
}

/// Returns the greatest numbers of employees of the groups, at most eight, together.
pub fn most_heads(groups: &[Group]) -> u64
    requires { length groups.now ≤ 8 }
    ensures { result ≡ sum_n (λ (g : Group). g.heads_max) groups.now }
{
    let mut sum = 0;
    for group in groups {
        sum += u64::from(group.heads_max);
    }
    sum
}

/// Returns whether the last rules are those of the groups, and at most 64 rules without the start
/// stand before.
fn is_extended(grammar: &Grammar, groups: &[Group]) -> bool
    ensures { IsTrue result ↔ HasGroupRules grammar.now groups.now }
{
    let rules = grammar.rules.as_slice();
    if rules.len() < groups.len() {
        return false;
    }
    let (own, added) = rules.split_at(rules.len() - groups.len());
    own.len() <= 64
        && are_below(own, grammar.start as usize)
        && lead_to_groups(added, groups, grammar.start)
}

/// Returns whether the rules have no name from this one on.
fn are_below(rules: &[Rule], names: usize) -> bool
    ensures { IsTrue result ↔ All (IsRuleBelow names) rules.now }
{
    rules.iter().all(|rule| is_below(rule, names))
}

/// Says whether a rule speaks only of names below a number.
fn is_below(rule: &Rule, names: usize) -> bool
    ensures { IsTrue result ↔ IsRuleBelow names rule.now }
{
    (rule.left as usize) < names && right_is_below(rule.right.as_slice(), names)
}

/// Says whether the symbols of a right side are codes or names below a number.
fn right_is_below(right: &[Sym], names: usize) -> bool
    ensures { IsTrue result ↔ All (IsSymbolBelow names) right.now }
{
    right.iter().all(|sym| symbol_is_below(sym, names))
}

/// Says whether a symbol is a code or a name below a number.
fn symbol_is_below(sym: &Sym, names: usize) -> bool
    ensures { IsTrue result ↔ IsSymbolBelow names sym.now }
{
    match *sym {
        Sym::Code(_) => true,
        Sym::Name(name) => (name as usize) < names,
    }
}

/// Returns whether these are the rules that lead from the added name to the groups' names.
fn lead_to_groups(rules: &[Rule], groups: &[Group], added: u8) -> bool
    requires { length rules.now ≡ length groups.now }
    ensures { IsTrue result ↔ LeadToGroups added rules.now groups.now }
{
    for (place, group) in groups.iter().enumerate() {
        if !leads_to(&rules[place], group, added) {
            return false;
        }
    }
    true
}

/// Returns whether the rule leads from the added name to the group's name, at no cost and on any
/// span.
fn leads_to(rule: &Rule, group: &Group, added: u8) -> bool
    ensures { IsTrue result ↔ (rule.now ≡ group_rule added group.now) }
{
    rule.left == added
        && rule.cost == 0
        && is_name(rule.right.as_slice(), group.name)
        && rule.span == ANY
        && rule.first == ANY
        && rule.last == ANY
}

/// Returns whether the right side is this name alone.
fn is_name(right: &[Sym], name: u8) -> bool
    ensures { IsTrue result ↔ (right.now ≡ Sym.Name name ∷ []) }
{
    match right {
        [Sym::Name(only)] => *only == name,
        _ => false,
    }
}
