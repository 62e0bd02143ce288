//! Whose number is varied, by a name.

ghost use Rattle.std.specs.Prelude.{◌≡◌, ◌<◌, IfSome, length};
ghost use Rattle.std.specs.Option.{option_copied};
ghost use Rattle.search_days.specs.day_curve.Named.{group_place, is_named, staff_of};
ghost use Rattle.search_days.specs.day_curve.Staffs.{IsStaff};

use crate::day_curve::staff::Staff;
use model_rosters::{Grammar, Group, Instance};

/// Says whether a group has this name.
fn is_named(grammar: &Grammar, group: &Group, name: &str) -> bool
    ensures { result ≡ is_named grammar.now name.now group.now }
{
    match grammar.names.as_slice().get(group.name as usize) {
        Some(own) => own.as_slice() == name.as_bytes(),
        None => false,
    }
}

/// Returns the place of the group of a name, from 0.
fn group_place(instance: &Instance, name: &str) -> Option<usize>
    ensures place { result ≡ group_place instance.now name.now }
    ensures within { IfSome result (λ k. k < length instance.now.groups) }
{
    let groups = instance.groups.as_slice();
    groups
        .iter()
        .position(|group| is_named(&instance.grammar, group, name))
}

/// Returns whose greatest number a curve of a day varies: that of the group of a name, where one is said, and
/// that of all employees where none is and the day has no groups. `None` where the day has groups and no name
/// is said, or has no group of the name.
pub fn staff_of(instance: &Instance, name: Option<&str>) -> Option<Staff>
    ensures is { result ≡ staff_of instance.now (option_copied name.entry) }
    ensures staff { IfSome result (IsStaff instance.now) }
{
    match name {
        Some(name) => match group_place(instance, name) {
            Some(place) => Some(Staff::OneGroup { place }),
            None => None,
        },
        None => {
            if instance.groups.is_empty() {
                return Some(Staff::Everyone);
            }
            None
        }
    }
}
