//! What a demand shows.

ghost use Rattle.std.specs.Prelude.{◌≡◌, ◌<◌, ◌↔◌, IsTrue, IfOk, OnOk, length};
ghost use Rattle.model_rosters.specs.Sound.{IsSound};
ghost use Rattle.tree_findings.specs.Findings.{IsStrangeGroup, IsVainNeed, OfGroup, OfTeam, OfCell, IsDemandFinding};
ghost use Rattle.tree_findings.specs.Listed.{Adds, OfFirst, AreFindings};
ghost use Rattle.tree_findings.specs.Shifts.{AreShifts};

use crate::finding::Finding;
use crate::groups::is_absent_team;
use crate::listed::add_if;
use crate::shifts::{Shifts, day_uses_name, fills_day, has_letter, has_tree, uses_code};
use model_rosters::{Cell, Grammar, Group, List, Memory};
use std::alloc::Global;

// Whether a group has shifts, and no shift of the start name is one of them.
fn is_strange(shifts: &Shifts<'_>, group: &Group) -> bool
    requires { AreShifts shifts.now }
    ensures { IsTrue result ↔ IsStrangeGroup shifts.now.own.now shifts.now.day.now group.now }
{
    let name = group.name as usize;
    day_uses_name(shifts, name) && !fills_day(shifts, name)
}

// Whether somebody is needed at a cell, and no shift has its code then, though one has it in some period.
fn is_vain(shifts: &Shifts<'_>, cell: &Cell) -> bool
    requires { AreShifts shifts.now }
    ensures { IsTrue result ↔ IsVainNeed shifts.now.own.now shifts.now.day.now cell.now }
{
    0 < cell.need
        && has_tree(shifts)
        && uses_code(shifts, cell.code as usize)
        && !has_letter(shifts, cell.code, cell.period)
}

// Lists the groups of which no shift of the start name is one.
fn add_groups(
    shifts: &Shifts<'_>,
    groups: &[Group],
    found: &mut List<Finding>,
) -> Result<(), Memory>
    requires { AreShifts shifts.now }
    ensures { OnOk result (Adds (OfFirst (OfGroup shifts.now.own.now shifts.now.day.now groups.now)
        (length groups.now)) found.old found.new) }
{
    for place in 0..groups.len() {
        let group = &groups[place];
        add_if(
            found,
            is_strange(shifts, group),
            Finding::StrangeGroup(group.name),
        )?;
    }
    Ok(())
}

// Lists the names that the start name leads to and that have no group.
fn add_teams(own: &Grammar, groups: &[Group], found: &mut List<Finding>) -> Result<(), Memory>
    requires { IsSound own.now }
    ensures { OnOk result (Adds (OfFirst (OfTeam own.now groups.now) (length own.now.names))
        found.old found.new) }
{
    for name in 0..own.names.len() {
        let absent = is_absent_team(own, groups, name);
        add_if(found, absent, Finding::AbsentTeam(name as u8))?;
    }
    Ok(())
}

// Lists the cells whose needs no shift can meet.
fn add_cells(shifts: &Shifts<'_>, cells: &[Cell], found: &mut List<Finding>) -> Result<(), Memory>
    requires { AreShifts shifts.now }
    ensures { OnOk result (Adds (OfFirst (OfCell shifts.now.own.now shifts.now.day.now cells.now)
        (length cells.now)) found.old found.new) }
{
    for place in 0..cells.len() {
        let cell = &cells[place];
        add_if(
            found,
            is_vain(shifts, cell),
            Finding::VainNeed(cell.code, cell.period),
        )?;
    }
    Ok(())
}

// Lists what the demand shows.
fn add_demand(
    shifts: &Shifts<'_>,
    groups: &[Group],
    cells: &[Cell],
    found: &mut List<Finding>,
) -> Result<(), Memory>
    requires shifts { AreShifts shifts.now }
    requires sound { IsSound shifts.now.own.now }
    ensures { OnOk result (Adds (IsDemandFinding shifts.now.own.now shifts.now.day.now groups.now cells.now)
        found.old found.new) }
{
    add_groups(shifts, groups, found)?;
    add_teams(shifts.own, groups, found)?;
    add_cells(shifts, cells, found)
}

/// Returns what is odd about the groups and the cells of a demand, by the shifts of its rules: groups that
/// the start name does not lead to, names that it leads to and that have no group, and needs that no shift
/// can meet.
///
/// # Errors
///
/// `Memory` where memory runs out.
pub fn demand_findings(
    alloc: Global,
    shifts: &Shifts<'_>,
    groups: &[Group],
    cells: &[Cell],
) -> Result<List<Finding>, Memory>
    requires shifts { AreShifts shifts.now }
    requires sound { IsSound shifts.now.own.now }
    ensures { IfOk result (AreFindings (IsDemandFinding shifts.now.own.now shifts.now.day.now groups.now
        cells.now)) }
{
    let mut found = List::new(alloc);
    match add_demand(shifts, groups, cells, &mut found) {
        Ok(()) => Ok(found),
        Err(fault) => Err(fault),
    }
}
