//! Base cuts counted, and the arc of a group's rule.

ghost use Rattle.std.specs.Prelude.{◌≡◌, ◌≤◌, length};
ghost use Rattle.model_rosters.specs.Cuts.{group_arc, group_cut_count, base_cuts};
ghost use Rattle.model_rosters.specs.Folds.{sum_n};

use crate::grammar::ArcKey;
use crate::instance::{Group, Instance};

/// With how many cuts a path may begin: two for each group.
pub const MOST_BASE_CUTS: usize = 16;

/// Returns the arc of the rule that adds a group, on the whole day.
pub fn group_arc(periods: u8, rule: u8) -> ArcKey
    ensures { result ≡ group_arc periods rule }
{
    ArcKey {
        rule,
        suffix: 0,
        start: 1,
        len: periods,
        part: periods,
    }
}

/// Returns the number of the cuts with which every path begins, at most 16.
#[tactic(auto, using(crate::proofs::CutCounts::base_length))]
pub fn base_cut_count(instance: &Instance) -> usize
    requires { length instance.now.groups ≤ 8 }
    ensures value { result ≡ length (base_cuts instance.now) }
    ensures few { result ≤ 16 }
{
    cut_count(instance.heads_max, instance.groups.as_slice())
}

/// Returns the number of the base cuts that these groups bring, of a day with at most so many
/// employees.
fn cut_count(most: u32, groups: &[Group]) -> usize
    requires { length groups.now ≤ 8 }
    ensures value { result ≡ sum_n (group_cut_count most) groups.now }
    ensures few { result ≤ 16 }
{
    let mut count = 0;
    for group in groups {
        count += group_cut_count(most, group);
    }
    count
}

/// Returns how many base cuts a group brings.
fn group_cut_count(most: u32, group: &Group) -> usize
    ensures value { result ≡ group_cut_count most group.now }
    ensures few { result ≤ 2 }
{
    usize::from(group.heads_max < most) + usize::from(0 < group.heads_min)
}
