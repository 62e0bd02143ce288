//! The day with another greatest number of a team.

ghost use Rattle.std.specs.Prelude.{◌≡◌, ◌<◌, ◌≤◌, ◌^◌, length};
ghost use Rattle.search_days.specs.day_curve.Staffs.{IsStaff, groups_with, staff_least, staff_most, with_group, with_heads};

use model_rosters::{Group, Instance, List, most_heads};
use std::alloc::Global;
use std::mem;

/// Whose greatest number a curve varies.
#[derive(Clone, Copy, Debug, PartialEq, Eq, Drop)]
pub enum Staff {
    /// All employees of a day without groups.
    Everyone,
    /// Those of the group at a place, from 0, of a day with groups.
    OneGroup { place: usize },
}

/// Returns how many of a team are to work at least.
pub(crate) fn staff_least(instance: &Instance, staff: Staff) -> u32
    ensures { result ≡ staff_least staff instance.now }
{
    match staff {
        Staff::Everyone => instance.heads_min,
        Staff::OneGroup { place } => match instance.groups.as_slice().get(place) {
            Some(group) => group.heads_min,
            None => 0,
        },
    }
}

/// Returns how many of a team may work at most.
pub(crate) fn staff_most(instance: &Instance, staff: Staff) -> u32
    ensures { result ≡ staff_most staff instance.now }
{
    match staff {
        Staff::Everyone => instance.heads_max,
        Staff::OneGroup { place } => match instance.groups.as_slice().get(place) {
            Some(group) => group.heads_max,
            None => 0,
        },
    }
}

/// Returns groups with another greatest number of the one at a place.
fn with_group(groups: List<Group>, place: usize, most: u32) -> List<Group>
    requires { place < length groups }
    ensures is { result ≡ with_group place most groups }
    ensures length { length result ≡ length groups }
{
    let mut groups = groups.into_vec();
    let group = groups[place];
    groups[place] = Group {
        name: group.name,
        heads_min: group.heads_min,
        heads_max: most,
    };
    List::from_vec(groups)
}

/// Gives a day another greatest number of a team.
pub(crate) fn set_heads(alloc: Global, instance: &mut Instance, staff: Staff, most: u32)
    requires staff { IsStaff instance.old staff }
    requires few { length instance.old.groups ≤ 8 }
    requires fits { (with_heads staff instance.old most).heads_max < 2 ^ 32 }
    ensures { instance.new ≡ with_heads staff instance.old most }
{
    match staff {
        Staff::Everyone => instance.heads_max = most,
        Staff::OneGroup { place } => {
            let groups = mem::replace(&mut instance.groups, List::new(alloc));
            let groups = with_group(groups, place, most);
            instance.heads_max = most_heads(groups.as_slice()) as u32;
            instance.groups = groups;
        }
    }
}
