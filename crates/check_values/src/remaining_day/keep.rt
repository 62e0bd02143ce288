//! `remaining`, by the prices that `found_of` of `check_values` finds.

ghost use Rattle.std.specs.Prelude.{◌≡◌, ◌≤◌, [], All, IfOk, length, unwrap_or};
ghost use Rattle.model_rosters.specs.Folds.{Each, sum_n};
ghost use Rattle.model_rosters.specs.SoundInstance.{IsSoundInstance};
ghost use Rattle.check_certificates.specs.RosterCauses.{duties};
ghost use Rattle.check_certificates.specs.Sound.{IsSoundShift};
ghost use Rattle.check_values.specs.remaining_day.Answers.{IsRemaining, IsRest};
ghost use Rattle.check_values.specs.Causes.{AreFound};
ghost use Rattle.check_values.specs.remaining_day.Causes.{causes_of};
ghost use Rattle.check_values.specs.remaining_day.Remaining.{groups_left, least_left, most_left};

use crate::found_of;
use crate::remaining_day::answer::{Remaining, Rest};
use crate::remaining_day::causes::causes_of;
use crate::remaining_day::cells::{cells_left, kept_penalty};
use crate::remaining_day::day::{heads_left, with_parts};
use crate::remaining_day::groups::groups_left;
use model_rosters::{Group, Instance, List, Memory, Shift};
use std::alloc::Global;
use text_demand_lines::Heads;

// The sum of the prices that were found.
fn paid(found: &[Option<u64>]) -> u64
    requires few { length found.now ≤ 64 }
    requires small { All (λ price. unwrap_or price 0 ≤ 63030000) found.now }
    ensures { result ≡ sum_n (λ price. unwrap_or price 0) found.now }
{
    let mut sum = 0;
    for price in found {
        sum += price.unwrap_or(0);
    }
    sum
}

// The remaining day of these groups and head counts, where somebody is left.
fn rest(
    alloc: Global,
    instance: &Instance,
    kept: &[Shift],
    groups: List<Group>,
    heads: Heads,
    found: &[Option<u64>],
) -> Result<Rest, Memory>
    requires sound { IsSoundInstance instance.now }
    requires few { length kept.now ≤ 64 }
    requires found { AreFound instance.now kept.now found.now }
    requires fits { causes_of instance.now (duties kept.now) found.now ≡ [] }
    requires groups { groups ≡ groups_left 1 (duties kept.now) instance.now.groups }
    requires least { heads.least ≡ least_left instance.now (duties kept.now) instance.now.groups }
    requires most { heads.most ≡ most_left instance.now (duties kept.now) instance.now.groups }
    requires some { 1 ≤ heads.most }
    ensures { IfOk result (IsRest instance.now kept.now) }
{
    let cells = cells_left(alloc, &instance.grammar, kept, instance.cells.as_slice())?;
    let day = with_parts(alloc, instance, groups, heads, cells)?;
    Ok(Rest {
        day,
        paid: paid(found),
        penalty: kept_penalty(instance, kept),
    })
}

// What remains of a day whose rosters may have the kept shifts.
fn left(
    alloc: Global,
    instance: &Instance,
    kept: &[Shift],
    found: &[Option<u64>],
) -> Result<Remaining, Memory>
    requires sound { IsSoundInstance instance.now }
    requires few { length kept.now ≤ 64 }
    requires found { AreFound instance.now kept.now found.now }
    requires fits { causes_of instance.now (duties kept.now) found.now ≡ [] }
    ensures { IfOk result (IsRemaining instance.now kept.now) }
{
    let groups = groups_left(alloc, kept, instance.groups.as_slice())?;
    let heads = heads_left(instance, kept, groups.as_slice());
    if heads.most == 0 {
        return Ok(Remaining::Nobody);
    }
    let rest = rest(alloc, instance, kept, groups, heads, found)?;
    Ok(Remaining::Day(rest))
}

/// Returns what remains of a day whose roster is to have the kept shifts, at most 64, or each cause for which
/// no roster of it has them.
///
/// # Errors
///
/// `Memory` where memory runs out.
pub fn remaining(alloc: Global, instance: &Instance, kept: &[Shift]) -> Result<Remaining, Memory>
    requires sound { IsSoundInstance instance.now }
    requires few { length kept.now ≤ 64 }
    requires shifts { Each (IsSoundShift instance.now) kept.now }
    ensures { IfOk result (IsRemaining instance.now kept.now) }
{
    let found = found_of(alloc, instance, kept)?;
    let causes = causes_of(alloc, instance, kept, found.as_slice())?;
    if !causes.is_empty() {
        return Ok(Remaining::Impossible(causes));
    }
    left(alloc, instance, kept, found.as_slice())
}
