//! The groups of which somebody is left.

ghost use Rattle.std.specs.Prelude.{◌≡◌, ◌≤◌, ◌++◌, [], ◌==◌, if◌then◌else◌, ◌∷◌, IfOk, OnOk, length};
ghost use Rattle.check_certificates.specs.RosterCauses.{duties};
ghost use Rattle.check_values.specs.remaining_day.Remaining.{group_left, groups_left};

use crate::remaining_day::counts::kept_of;
use model_rosters::{Group, List, Memory, Shift};
use std::alloc::Global;

// Returns a group beside the shifts that are of its number.
fn group_left(shifts: &[Shift], number: u8, group: &Group) -> Group
    requires { length shifts.now ≤ 64 }
    ensures { result ≡ group_left number (duties shifts.now) group.now }
{
    let kept = kept_of(shifts, number);
    Group {
        name: group.name,
        heads_min: group.heads_min.saturating_sub(kept),
        heads_max: group.heads_max.saturating_sub(kept),
    }
}

// Adds a group, where somebody of it is left.
fn push_group(groups: &mut List<Group>, group: Group) -> Result<(), Memory>
    ensures { OnOk result (groups.new ≡ groups.old ++ (if group.heads_max == 0 then [] else group ∷ [])) }
{
    if group.heads_max == 0 {
        return Ok(());
    }
    groups.push(group)
}

/// Returns the groups, at most 8, of which somebody is left beside the shifts, at most 64.
///
/// # Errors
///
/// `Memory` where memory runs out.
pub(crate) fn groups_left(
    alloc: Global,
    shifts: &[Shift],
    groups: &[Group],
) -> Result<List<Group>, Memory>
    requires few { length shifts.now ≤ 64 }
    requires few_groups { length groups.now ≤ 8 }
    ensures { IfOk result (λ left. left ≡ groups_left 1 (duties shifts.now) groups.now) }
{
    let mut left = List::new(alloc);
    for (place, group) in groups.iter().enumerate() {
        push_group(&mut left, group_left(shifts, place as u8 + 1, group))?;
    }
    Ok(left)
}
