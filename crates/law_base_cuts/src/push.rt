//! The cuts of one group, and of all.

ghost use Rattle.std.specs.Prelude.{◌≡◌, ◌≤◌, ◌<◌, ◌+◌, ◌-◌, ◌++◌, [], ◌∷◌, cond, nat_lt, vec_len, vec_capacity};
ghost use Rattle.model_rosters.specs.Cuts.{group_cuts, base_cuts};
ghost use Rattle.model_rosters.specs.SoundInstance.{IsSoundInstance};

use model_rosters::{ArcKey, Cut, Group, Instance, Side, group_arc};

// Adds a Low cut where a group's most employees say more than those of the day. Takes no memory.
fn push_most(path: &mut Vec<Cut>, arc: ArcKey, most: u32, heads: u32)
    requires { vec_len path.old < vec_capacity path.old }
    ensures items { path.new.items ≡ path.old.items
        ++ cond (nat_lt most heads) (record { arc = arc; side = Side.Low; b = most } ∷ []) [] }
    ensures len { vec_len path.new ≤ vec_len path.old + 1 }
    ensures capacity { vec_capacity path.new ≡ vec_capacity path.old }
{
    if most < heads {
        path.push_reserved(Cut {
            arc,
            side: Side::Low,
            b: most,
        });
    }
}

// Adds a High cut where a group needs employees. Takes no memory.
fn push_least(path: &mut Vec<Cut>, arc: ArcKey, least: u32)
    requires { vec_len path.old < vec_capacity path.old }
    ensures items { path.new.items ≡ path.old.items
        ++ cond (nat_lt 0 least) (record { arc = arc; side = Side.High; b = least - 1 } ∷ []) [] }
    ensures len { vec_len path.new ≤ vec_len path.old + 1 }
    ensures capacity { vec_capacity path.new ≡ vec_capacity path.old }
{
    if least > 0 {
        path.push_reserved(Cut {
            arc,
            side: Side::High,
            b: least - 1,
        });
    }
}

// Adds the cuts of the group that a rule adds. Takes no memory.
fn push_group(path: &mut Vec<Cut>, instance: &Instance, rule: u8, group: &Group)
    requires { vec_len path.old + 2 ≤ vec_capacity path.old }
    ensures items { path.new.items ≡ path.old.items ++ group_cuts instance.now rule group.now }
    ensures len { vec_len path.new ≤ vec_len path.old + 2 }
    ensures capacity { vec_capacity path.new ≡ vec_capacity path.old }
{
    let arc = group_arc(instance.grammar.periods, rule);
    push_most(path, arc, group.heads_max, instance.heads_max);
    push_least(path, arc, group.heads_min);
}

/// Adds the cuts with which every path begins: for each group in order a Low cut where its range says
/// more than that of the day, and a High cut where it needs employees. Takes no memory.
pub fn push_base_cuts(path: &mut Vec<Cut>, instance: &Instance)
    requires sound { IsSoundInstance instance.now }
    requires room { vec_len path.old + 16 ≤ vec_capacity path.old }
    ensures items { path.new.items ≡ path.old.items ++ base_cuts instance.now }
    ensures len { vec_len path.new ≤ vec_len path.old + 16 }
    ensures capacity { vec_capacity path.new ≡ vec_capacity path.old }
{
    let groups = instance.groups.as_slice();
    let first = instance.grammar.rules.len() - groups.len() + 1;
    for (place, group) in groups.iter().enumerate() {
        push_group(path, instance, (first + place) as u8, group);
    }
}
