//! Whether the head counts or a cell alone show that no roster is allowed.

ghost use Rattle.std.specs.Prelude.{◌≡◌, ◌<◌, ◌↔◌, All, IsTrue, false, true, length, min, slice_index_or};
ghost use Rattle.model_rosters.specs.declared.instance.Cell.{Cell as Demanded};
ghost use Rattle.model_rosters.specs.declared.instance.Group.{Group as Members};
ghost use Rattle.model_rosters.specs.Folds.{In};
ghost use Rattle.model_rosters.specs.SoundInstance.{IsSoundInstance};
ghost use Rattle.model_rosters.specs.Teams.{Team};
ghost use Rattle.law_bounds.specs.Infeasible.{IsUnstaffable, IsUnmeetable, IsPlainlyInfeasible};
ghost use Rattle.check_parts.specs.priced_part.Filled.{NeedsInVain, TellsDerived};

use model_rosters::{Cell, Instance};

/// Returns whether a team of this name that needs so many employees needs some, and the list tells
/// that the name derives no word of the day.
fn is_unstaffable(derives: &[bool], name: u8, least: u32) -> bool
    requires { name < length derives.now }
    ensures { IsTrue result ↔ (0 < least) × (slice_index_or derives.now name true ≡ false) }
{
    least > 0 && !derives[name as usize]
}

/// Returns whether some group needs employees and has no shift.
fn has_unstaffable_group(instance: &Instance, derives: &[bool]) -> bool
    requires told { TellsDerived instance.now.grammar derives.now }
    requires names { All (λ g. g.name < length instance.now.grammar.names) instance.now.groups }
    ensures { IsTrue result ↔ ((g : Members) × In g instance.now.groups
        × NeedsInVain instance.now.grammar g.name g.heads_min) }
{
    for group in instance.groups.as_slice() {
        if is_unstaffable(derives, group.name, group.heads_min) {
            return true;
        }
    }
    false
}

/// Returns whether some team needs employees and has no shift.
fn has_unstaffable_team(instance: &Instance, derives: &[bool]) -> bool
    requires sound { IsSoundInstance instance.now }
    requires told { TellsDerived instance.now.grammar derives.now }
    ensures { IsTrue result ↔ ((t : Team) × IsUnstaffable instance.now t) }
{
    if instance.groups.is_empty() {
        is_unstaffable(derives, instance.grammar.start, instance.heads_min)
    } else {
        has_unstaffable_group(instance, derives)
    }
}

/// Returns whether some cell has no count in its range.
fn has_unmeetable_cell(instance: &Instance) -> bool
    ensures { IsTrue result ↔ ((c : Demanded) × IsUnmeetable instance.now c) }
{
    let most = instance.heads_max;
    for cell in instance.cells.as_slice() {
        if is_unmeetable(cell, most) {
            return true;
        }
    }
    false
}

/// Says whether no count of at most so many employees is in the cell's range.
fn is_unmeetable(cell: &Cell, most: u32) -> bool
    ensures { IsTrue result ↔ (min cell.now.ceiling most < cell.now.floor) }
{
    cell.ceiling.min(most) < cell.floor
}

/// Returns whether the head counts or a cell alone show that no roster is allowed. The list tells of
/// each name of the grammar, in its order, whether it derives a word of the day. Takes no memory.
pub fn is_plainly_infeasible(instance: &Instance, derives: &[bool]) -> bool
    requires sound { IsSoundInstance instance.now }
    requires told { TellsDerived instance.now.grammar derives.now }
    ensures { IsTrue result ↔ IsPlainlyInfeasible instance.now }
{
    has_unstaffable_team(instance, derives) || has_unmeetable_cell(instance)
}
