//! What a rules text shows.

ghost use Rattle.std.specs.Prelude.{◌≡◌, ◌<◌, ◌↔◌, IsTrue, IfOk, OnOk, length};
ghost use Rattle.model_rosters.specs.Sound.{IsSound};
ghost use Rattle.tree_findings.specs.Findings.{window_of, IsBeyond, OfRule, IsRuleFinding};
ghost use Rattle.tree_findings.specs.Listed.{Adds, OfFirst, AreFindings};

use crate::finding::{Finding, WindowKind};
use crate::listed::add_if;
use crate::same::stands_before;
use model_rosters::{Grammar, List, Memory, Rule, Window};
use std::alloc::Global;

// Returns a window of a rule.
fn window_of(rule: &Rule, kind: WindowKind) -> Window
    ensures { result ≡ window_of rule.now kind }
{
    match kind {
        WindowKind::Length => rule.span,
        WindowKind::First => rule.first,
        WindowKind::Last => rule.last,
    }
}

/// Returns whether a window of a rule begins behind the day's last period.
pub(crate) fn is_beyond(grammar: &Grammar, rule: &Rule, kind: WindowKind) -> bool
    ensures { IsTrue result ↔ IsBeyond grammar.now rule.now kind }
{
    grammar.periods < window_of(rule, kind).lo
}

// Lists what the rules text shows of the rule at a place.
fn add_rule(grammar: &Grammar, place: usize, found: &mut List<Finding>) -> Result<(), Memory>
    requires sound { IsSound grammar.now }
    requires within { place < length grammar.now.rules }
    ensures { OnOk result (Adds (OfRule grammar.now place) found.old found.new) }
{
    let rule = &grammar.rules.as_slice()[place];
    let number = place as u8 + 1;
    let length = WindowKind::Length;
    add_if(
        found,
        is_beyond(grammar, rule, length),
        Finding::BeyondDay(number, length),
    )?;
    let first = WindowKind::First;
    add_if(
        found,
        is_beyond(grammar, rule, first),
        Finding::BeyondDay(number, first),
    )?;
    let last = WindowKind::Last;
    add_if(
        found,
        is_beyond(grammar, rule, last),
        Finding::BeyondDay(number, last),
    )?;
    add_if(
        found,
        stands_before(grammar, place),
        Finding::SameRule(number),
    )
}

// Lists what the rules text shows.
fn add_rules(grammar: &Grammar, found: &mut List<Finding>) -> Result<(), Memory>
    requires { IsSound grammar.now }
    ensures { OnOk result (Adds (IsRuleFinding grammar.now) found.old found.new) }
{
    for place in 0..grammar.rules.len() {
        add_rule(grammar, place, found)?;
    }
    Ok(())
}

/// Returns what is odd about the rules of a text, whatever their shifts are: windows that begin behind the
/// day's last period, and rules that stand twice.
///
/// # Errors
///
/// `Memory` where memory runs out.
pub fn rule_findings(alloc: Global, grammar: &Grammar) -> Result<List<Finding>, Memory>
    requires { IsSound grammar.now }
    ensures { IfOk result (AreFindings (IsRuleFinding grammar.now)) }
{
    let mut found = List::new(alloc);
    match add_rules(grammar, &mut found) {
        Ok(()) => Ok(found),
        Err(fault) => Err(fault),
    }
}
