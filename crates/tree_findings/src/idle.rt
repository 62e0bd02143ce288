//! What no shift uses.

ghost use Rattle.std.specs.Prelude.{◌≡◌, ◌<◌, ◌↔◌, IsTrue, IfOk, OnOk, Some, length, slice_get};
ghost use Rattle.model_rosters.specs.Sound.{IsSound};
ghost use Rattle.tree_findings.specs.Findings.{BeginsInside, IsIdle, IsIdleName, IsIdleCode, OfIdleRule, OfIdleName, OfIdleCode, IsUseFinding};
ghost use Rattle.tree_findings.specs.Listed.{Adds, OfFirst, AreFindings};
ghost use Rattle.tree_findings.specs.Shifts.{AreShifts};

use crate::finding::{Finding, WindowKind};
use crate::listed::add_if;
use crate::rules::is_beyond;
use crate::shifts::{Shifts, has_tree, uses_code, uses_name, uses_rule};
use model_rosters::{Grammar, List, Memory, Rule};
use std::alloc::Global;

// Whether each window of a rule begins in the day.
fn begins_inside(grammar: &Grammar, rule: &Rule) -> bool
    ensures { IsTrue result ↔ BeginsInside grammar.now rule.now }
{
    !is_beyond(grammar, rule, WindowKind::Length)
        && !is_beyond(grammar, rule, WindowKind::First)
        && !is_beyond(grammar, rule, WindowKind::Last)
}

// Whether no shift uses the rule of a number, and neither a window nor its name tells why.
fn is_idle(shifts: &Shifts<'_>, number: usize, rule: &Rule) -> bool
    requires { AreShifts shifts.now }
    ensures { IsTrue result ↔ IsIdle shifts.now.own.now shifts.now.day.now number rule.now }
{
    !uses_rule(shifts, number)
        && uses_name(shifts, rule.left as usize)
        && begins_inside(shifts.own, rule)
}

// Whether there are shifts, and none uses a name.
fn is_idle_name(shifts: &Shifts<'_>, name: usize) -> bool
    requires { AreShifts shifts.now }
    ensures { IsTrue result ↔ IsIdleName shifts.now.own.now shifts.now.day.now name }
{
    has_tree(shifts) && !uses_name(shifts, name)
}

// Whether there are shifts, and none has a code.
fn is_idle_code(shifts: &Shifts<'_>, code: usize) -> bool
    requires { AreShifts shifts.now }
    ensures { IsTrue result ↔ IsIdleCode shifts.now.own.now shifts.now.day.now code }
{
    has_tree(shifts) && !uses_code(shifts, code)
}

// Lists the rules that no shift uses.
fn add_rules(shifts: &Shifts<'_>, found: &mut List<Finding>) -> Result<(), Memory>
    requires shifts { AreShifts shifts.now }
    requires sound { IsSound shifts.now.own.now }
    ensures { OnOk result (Adds (OfFirst (OfIdleRule shifts.now.own.now shifts.now.day.now)
        (length shifts.now.own.now.rules)) found.old found.new) }
{
    let rules = shifts.own.rules.as_slice();
    for place in 0..rules.len() {
        let idle = is_idle(shifts, place + 1, &rules[place]);
        add_if(found, idle, Finding::IdleRule(place as u8 + 1))?;
    }
    Ok(())
}

// Lists the names that no shift uses.
fn add_names(shifts: &Shifts<'_>, found: &mut List<Finding>) -> Result<(), Memory>
    requires shifts { AreShifts shifts.now }
    requires sound { IsSound shifts.now.own.now }
    ensures { OnOk result (Adds (OfFirst (OfIdleName shifts.now.own.now shifts.now.day.now)
        (length shifts.now.own.now.names)) found.old found.new) }
{
    for name in 0..shifts.own.names.len() {
        let idle = is_idle_name(shifts, name);
        add_if(found, idle, Finding::IdleName(name as u8))?;
    }
    Ok(())
}

// Lists the codes that no shift has.
fn add_codes(shifts: &Shifts<'_>, found: &mut List<Finding>) -> Result<(), Memory>
    requires shifts { AreShifts shifts.now }
    requires sound { IsSound shifts.now.own.now }
    ensures { OnOk result (Adds (OfFirst (OfIdleCode shifts.now.own.now shifts.now.day.now)
        (length shifts.now.own.now.codes)) found.old found.new) }
{
    for code in 0..shifts.own.codes.len() {
        let idle = is_idle_code(shifts, code);
        add_if(found, idle, Finding::IdleCode(code as u8))?;
    }
    Ok(())
}

// Lists what no shift uses.
fn add_idle(shifts: &Shifts<'_>, found: &mut List<Finding>) -> Result<(), Memory>
    requires shifts { AreShifts shifts.now }
    requires sound { IsSound shifts.now.own.now }
    ensures { OnOk result (Adds (IsUseFinding shifts.now.own.now shifts.now.day.now) found.old found.new) }
{
    add_if(found, !has_tree(shifts), Finding::NoShift)?;
    add_rules(shifts, found)?;
    add_names(shifts, found)?;
    add_codes(shifts, found)
}

/// Returns what no shift uses: rules, names and codes, or that there is no shift.
///
/// # Errors
///
/// `Memory` where memory runs out.
pub fn use_findings(alloc: Global, shifts: &Shifts<'_>) -> Result<List<Finding>, Memory>
    requires shifts { AreShifts shifts.now }
    requires sound { IsSound shifts.now.own.now }
    ensures { IfOk result (AreFindings (IsUseFinding shifts.now.own.now shifts.now.day.now)) }
{
    let mut found = List::new(alloc);
    match add_idle(shifts, &mut found) {
        Ok(()) => Ok(found),
        Err(fault) => Err(fault),
    }
}
