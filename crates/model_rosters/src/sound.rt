//! Whether a grammar is sound, and plain.

ghost use Rattle.std.specs.Prelude.{
  ℕ,
  ◌≡◌,
  ◌≢◌,
  ◌<◌,
  ◌≤◌,
  ◌↔◌,
  ◌∷◌,
  [],
  true,
  length,
  slice_get,
  count_by,
  IsTrue,
  All,
  Some,
};
ghost use Rattle.model_rosters.specs.Names.{is_code_byte, added_name};
ghost use Rattle.model_rosters.specs.Order.{known_after};
ghost use Rattle.model_rosters.specs.Ranks.{HasNames};
ghost use Rattle.model_rosters.specs.Sound.{
  Exists,
  IsWindow,
  IsRule,
  AreCodes,
  IsNameOf,
  names_of,
  appearances,
  AreInOrder,
  has_rule,
  AreNames,
  IsSound,
  IsPlain,
};
ghost use Rattle.model_rosters.specs.UnitRules.{IsRanked};

use crate::grammar::{CodeDef, Grammar, Rule, Sym, Window};
use crate::list::List;
use crate::names;
use crate::unit_rules::{MOST_NAMES, unit_ranks};

/// Returns whether the grammar is sound: 1 to 96 periods, sound codes, names and rules, a start
/// that is a name, and no cycle of one-symbol rules. Takes no memory.
pub fn is_sound(grammar: &Grammar) -> bool
    ensures { IsTrue result ↔ IsSound grammar.now }
{
    let names = grammar.names.len();
    has_day(grammar.periods)
        && are_codes(grammar.codes.as_slice())
        && are_names(grammar)
        && are_rules(grammar.rules.as_slice(), grammar.codes.len(), names)
        && (grammar.start as usize) < names
        && has_ranks(grammar)
}

/// Returns whether the grammar is within the limits of a text: at most 32 names and 64 rules, and
/// no name that only a day with groups adds.
pub fn is_plain(grammar: &Grammar) -> bool
    ensures { IsTrue result ↔ IsPlain grammar.now }
{
    grammar.names.len() <= 32 && grammar.rules.len() <= 64 && are_spelled(grammar.names.as_slice())
}

/// Returns whether a day may have so many periods.
fn has_day(periods: u8) -> bool
    ensures { IsTrue result ↔ ((1 ≤ periods) × (periods ≤ 96)) }
{
    1 <= periods && periods <= 96
}

/// Returns whether the name is the one that a day with groups adds.
fn is_added(name: &[u8]) -> bool
    ensures { IsTrue result ↔ (name.now ≡ added_name) }
{
    name == b"*".as_slice()
}

/// Returns whether no name is the added one.
fn are_spelled(names: &[List<u8>]) -> bool
    ensures { IsTrue result ↔ All (λ name. name ≢ added_name) names.now }
{
    names.iter().all(|name| !is_added(name.as_slice()))
}

/// Returns whether the window is in order and from 1 to 96.
fn is_window(window: &Window) -> bool
    ensures { IsTrue result ↔ IsWindow window.now }
{
    1 <= window.lo && window.lo <= window.hi && window.hi <= 96
}

/// Returns whether the position that the symbol has exists.
fn exists(sym: &Sym, codes: usize, names: usize) -> bool
    ensures { IsTrue result ↔ Exists codes names sym.now }
{
    match *sym {
        Sym::Code(code) => (code as usize) < codes,
        Sym::Name(name) => (name as usize) < names,
    }
}

/// Says whether each symbol of a right side is one of so many codes and names.
fn all_exist(right: &[Sym], codes: usize, names: usize) -> bool
    ensures { IsTrue result ↔ All (Exists codes names) right.now }
{
    right.iter().all(|sym| exists(sym, codes, names))
}

/// Returns whether the rule is sound apart from the other rules.
fn is_rule(rule: &Rule, codes: usize, names: usize) -> bool
    ensures { IsTrue result ↔ IsRule codes names rule.now }
{
    let right = rule.right.as_slice();
    (rule.left as usize) < names
        && rule.cost <= 10_000
        && !right.is_empty()
        && right.len() <= 8
        && all_exist(right, codes, names)
        && is_window(&rule.span)
        && is_window(&rule.first)
        && is_window(&rule.last)
}

/// Says whether each rule is one over so many codes and names.
fn each_is_rule(rules: &[Rule], codes: usize, names: usize) -> bool
    ensures { IsTrue result ↔ All (IsRule codes names) rules.now }
{
    rules.iter().all(|rule| is_rule(rule, codes, names))
}

/// Returns whether there are no more rules than there may be, and each is sound by itself.
fn are_rules(rules: &[Rule], codes: usize, names: usize) -> bool
    ensures { IsTrue result ↔ ((length rules.now ≤ 72) × All (IsRule codes names) rules.now) }
{
    rules.len() <= 72 && each_is_rule(rules, codes, names)
}

/// Says whether each code has a byte that may stand for one.
fn are_code_bytes(codes: &[CodeDef]) -> bool
    ensures { IsTrue result ↔ All (λ (c : CodeDef). is_code_byte c.byte ≡ true) codes.now }
{
    codes.iter().all(|code| names::is_code_byte(code.byte))
}

/// Returns how many codes are for work.
fn count_work(codes: &[CodeDef]) -> usize
    ensures { result ≡ count_by (λ (c : CodeDef). c.work) codes.now }
{
    codes.iter().filter(|code| code.work).count()
}

/// Returns whether no two codes have one byte.
fn have_own_bytes(codes: &[CodeDef]) -> bool
    ensures { IsTrue result ↔ ((i j : ℕ) (a b : CodeDef) → i < j → slice_get codes.now i ≡ Some a
        → slice_get codes.now j ≡ Some b → a.byte ≢ b.byte) }
{
    for (j, later) in codes.iter().enumerate() {
        for code in &codes[..j] {
            if code.byte == later.byte {
                return false;
            }
        }
    }
    true
}

/// Says whether the codes are at most 32, at most 8 of them work, and each has a byte of its own.
fn are_codes(codes: &[CodeDef]) -> bool
    ensures { IsTrue result ↔ AreCodes codes.now }
{
    codes.len() <= 32 && count_work(codes) <= 8 && are_code_bytes(codes) && have_own_bytes(codes)
}

/// Returns whether the name may stand at its place among the grammar's names.
fn is_name_of(grammar: &Grammar, place: usize, name: &[u8]) -> bool
    requires { place < length grammar.now.names }
    ensures { IsTrue result ↔ IsNameOf grammar.now place name.now }
{
    names::is_name(name)
        || is_added(name) && grammar.names.len() == place + 1 && place == grammar.start as usize
}

/// Says whether each name is one that may stand at its place.
fn have_names(grammar: &Grammar) -> bool
    ensures { IsTrue result ↔ ((x : ℕ) (name : List ℕ)
        → slice_get grammar.now.names x ≡ Some name → IsNameOf grammar.now x name) }
{
    for (place, name) in grammar.names.as_slice().iter().enumerate() {
        if !is_name_of(grammar, place, name.as_slice()) {
            return false;
        }
    }
    true
}

/// Says whether two names are the same.
fn is_same(name: &List<u8>, other: &List<u8>) -> bool
    ensures { IsTrue result ↔ (name.now ≡ other.now) }
{
    name == other
}

/// Returns whether no two names are equal.
fn are_apart(names: &[List<u8>]) -> bool
    ensures { IsTrue result ↔ ((i j : ℕ) (a b : List ℕ) → i < j → slice_get names.now i ≡ Some a
        → slice_get names.now j ≡ Some b → a ≢ b) }
{
    for (j, later) in names.iter().enumerate() {
        for name in &names[..j] {
            if is_same(name, later) {
                return false;
            }
        }
    }
    true
}

/// Returns whether the name is the left side of a rule.
fn has_rule(rules: &[Rule], name: usize) -> bool
    ensures { result ≡ has_rule rules.now name }
{
    rules.iter().any(|rule| rule.left as usize == name)
}

/// Says whether each of so many names has a rule.
fn have_rules(rules: &[Rule], names: usize) -> bool
    ensures { IsTrue result ↔ ((x : ℕ) → x < names → has_rule rules.now x ≡ true) }
{
    for name in 0..names {
        if !has_rule(rules, name) {
            return false;
        }
    }
    true
}

/// Returns how many names are known after the name, or none where it comes too early.
fn known_after(known: usize, name: u8) -> Option<usize>
    ensures { result ≡ known_after known (name ∷ []) }
{
    let name = name as usize;
    if name <= known {
        Some(known.max(name + 1))
    } else {
        None
    }
}

/// Returns how many names are known after the symbol.
fn known_after_symbol(known: usize, sym: Sym) -> Option<usize>
    ensures { result ≡ known_after known (names_of (sym ∷ [])) }
{
    match sym {
        Sym::Code(_) => Some(known),
        Sym::Name(name) => known_after(known, name),
    }
}

/// Returns how many names are known after a right side.
fn known_after_right(mut known: usize, right: &[Sym]) -> Option<usize>
    ensures { result ≡ known_after known (names_of right.now) }
{
    for sym in right {
        known = known_after_symbol(known, *sym)?;
    }
    Some(known)
}

/// Returns how many names are known after the rule.
fn known_after_rule(known: usize, rule: &Rule) -> Option<usize>
    ensures { result ≡ known_after known (rule.now.left ∷ names_of rule.now.right) }
{
    known_after_right(known_after(known, rule.left)?, rule.right.as_slice())
}

/// Returns whether the names are numbered in order of first appearance.
fn are_in_order(rules: &[Rule]) -> bool
    ensures { IsTrue result ↔ AreInOrder 0 (appearances rules.now) }
{
    let mut known = 0;
    for rule in rules {
        match known_after_rule(known, rule) {
            Some(after) => known = after,
            None => return false,
        }
    }
    true
}

/// Says whether the names are not too many, each is a name, no two are the same, and each has rules in order.
fn are_names(grammar: &Grammar) -> bool
    ensures { IsTrue result ↔ AreNames grammar.now }
{
    let rules = grammar.rules.as_slice();
    grammar.names.len() <= MOST_NAMES
        && have_names(grammar)
        && are_apart(grammar.names.as_slice())
        && have_rules(rules, grammar.names.len())
        && are_in_order(rules)
}

/// Returns whether the names have ranks that one-symbol rules raise.
fn has_ranks(grammar: &Grammar) -> bool
    requires { HasNames grammar.now }
    ensures { IsTrue result
        ↔ ((rank : ℕ → ℕ) × IsRanked grammar.now rank (length grammar.now.names)) }
{
    unit_ranks(grammar).is_ok()
}
