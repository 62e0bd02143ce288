//! What is noted of odd texts.

ghost use Rattle.std.specs.Prelude.{◌≡◌};
ghost use Rattle.model_rosters.specs.Sound.{IsSound};
ghost use Rattle.model_rosters.specs.SoundInstance.{IsSoundInstance};
ghost use Rattle.tree_findings.specs.Marks.{IsUseOf};
ghost use Rattle.tree_findings.specs.Shifts.{AreShifts};

use crate::finding_text::{Source, findings_text};
use command_shelf::Shelf;
use model_rosters::{Grammar, Instance, List};
use std::alloc::Global;
use text_rules::read_rules;
use tree_findings::{Finding, Shifts, Used, demand_findings, rule_findings, use_findings};

// Lists further findings, where memory suffices.
fn add_all(found: &mut List<Finding>, more: &List<Finding>) -> Option<()> {
    found.extend_from_slice(more.as_slice()).ok()
}

// Lists what the shifts of rules show.
fn add_uses(alloc: Global, grammar: &Grammar, used: &Used, found: &mut List<Finding>) -> Option<()>
    requires sound { IsSound grammar.now }
    requires used { IsUseOf grammar.now used.now }
{
    let shifts = Shifts {
        own: grammar,
        own_used: used,
        day: grammar,
        day_used: used,
    };
    add_all(found, &use_findings(alloc, &shifts).ok()?)
}

// Returns what is odd about rules. Where the day has too many arcs, what no shift uses is left out.
fn rules_found(alloc: Global, grammar: &Grammar) -> Option<List<Finding>>
    requires { IsSound grammar.now }
{
    let mut found = rule_findings(alloc, grammar).ok()?;
    if let Some(used) = Used::of(alloc, grammar) {
        add_uses(alloc, grammar, &used, &mut found)?;
    }
    Some(found)
}

// Lists what the shifts of a day show.
fn add_day(
    alloc: Global,
    shifts: &Shifts<'_>,
    instance: &Instance,
    found: &mut List<Finding>,
) -> Option<()>
    requires shifts { AreShifts shifts.now }
    requires sound { IsSound shifts.now.own.now }
{
    add_all(found, &use_findings(alloc, shifts).ok()?)?;
    let groups = instance.groups.as_slice();
    let cells = instance.cells.as_slice();
    add_all(found, &demand_findings(alloc, shifts, groups, cells).ok()?)
}

// Lists what the shifts of a day without groups show.
fn add_plain(alloc: Global, instance: &Instance, found: &mut List<Finding>) -> Option<()>
    requires { IsSound instance.now.grammar }
{
    let grammar = &instance.grammar;
    let used = Used::of(alloc, grammar)?;
    let shifts = Shifts {
        own: grammar,
        own_used: &used,
        day: grammar,
        day_used: &used,
    };
    add_day(alloc, &shifts, instance, found)
}

// Lists what the shifts of a day with groups show, and those of the rules' own start name.
fn add_grouped(
    alloc: Global,
    own: &Grammar,
    instance: &Instance,
    found: &mut List<Finding>,
) -> Option<()>
    requires own { IsSound own.now }
    requires day { IsSound instance.now.grammar }
{
    let own_used = Used::of(alloc, own)?;
    let day_used = Used::of(alloc, &instance.grammar)?;
    let shifts = Shifts {
        own,
        own_used: &own_used,
        day: &instance.grammar,
        day_used: &day_used,
    };
    add_day(alloc, &shifts, instance, found)
}

// Returns what is odd about a day, by the grammar of its rules.
fn day_text(
    alloc: Global,
    source: &Source<'_>,
    own: &Grammar,
    instance: &Instance,
) -> Option<String>
    requires own { IsSound own.now }
    requires day { IsSound instance.now.grammar }
{
    let mut found = rule_findings(alloc, own).ok()?;
    let _ = if instance.groups.is_empty() {
        add_plain(alloc, instance, &mut found)
    } else {
        add_grouped(alloc, own, instance, &mut found)
    };
    findings_text(alloc, source, own, found.as_slice())
}

// Returns what is odd about a day with groups, whose rules are read again.
fn grouped_text(alloc: Global, source: &Source<'_>, instance: &Instance) -> Option<String>
    requires { IsSound instance.now.grammar }
{
    let own = read_rules(alloc, source.rules).ok()?;
    day_text(alloc, source, &own, instance)
}

// Returns what is odd about a rules text that is accepted.
fn rules_findings(alloc: Global, text: &[u8]) -> Option<String> {
    let grammar = read_rules(alloc, text).ok()?;
    let found = rules_found(alloc, &grammar)?;
    let source = Source {
        rules: text,
        demand: &[],
    };
    findings_text(alloc, &source, &grammar, found.as_slice())
}

// Notes a text that is not empty.
fn note_text<S: Shelf>(shelf: &mut S, text: Option<String>)
    ensures { S.told shelf.new ≡ S.told shelf.old }
{
    match text {
        Some(text) if !text.is_empty() => shelf.note(text.as_str()),
        _ => {}
    }
}

/// Notes what is odd about a rules text: windows beyond the day, rules that stand twice, and what no shift of
/// the start name uses. Nothing is noted of a text that is refused, nor after want of memory.
pub(crate) fn note_rules<S: Shelf>(alloc: Global, shelf: &mut S, text: &[u8])
    ensures { S.told shelf.new ≡ S.told shelf.old }
{
    note_text(shelf, rules_findings(alloc, text));
}

/// Notes what is odd about a day, whose texts are given as they were read: windows, rules and names as of
/// rules alone, for the shifts of all groups and of the start name, and groups and needs that do not fit.
pub fn note_day<S: Shelf>(
    alloc: Global,
    shelf: &mut S,
    rules: &[u8],
    demand: &[u8],
    instance: &Instance,
)
    requires { IsSoundInstance instance.now }
    ensures { S.told shelf.new ≡ S.told shelf.old }
{
    let source = Source { rules, demand };
    let text = if instance.groups.is_empty() {
        day_text(alloc, &source, &instance.grammar, instance)
    } else {
        grouped_text(alloc, &source, instance)
    };
    note_text(shelf, text);
}
