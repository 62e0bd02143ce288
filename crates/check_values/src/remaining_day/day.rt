//! The remaining day.

ghost use Rattle.std.specs.Prelude.{◌≡◌, ◌≤◌, [], IfOk, length};
ghost use Rattle.model_rosters.specs.SoundInstance.{IsSoundInstance};
ghost use Rattle.check_certificates.specs.RosterCauses.{duties};
ghost use Rattle.model_rosters.specs.Sound.{IsPlain};
ghost use Rattle.check_values.specs.remaining_day.Days.{rules_of, regrouped};
ghost use Rattle.check_values.specs.remaining_day.Remaining.{groups_left, least_left, most_left};

use crate::group_rules::plain_grammar;
use crate::remaining_day::counts::kept_of;
use model_rosters::{Cell, Grammar, Group, Instance, List, Memory, Shift, least_heads, most_heads};
use std::alloc::Global;
use text_demand::day_grammar;
use text_demand_lines::Heads;

// The grammar of the day with these groups in place of its own.
fn regrouped(alloc: Global, instance: &Instance, groups: &[Group]) -> Result<Grammar, Memory>
    requires { IsPlain (rules_of instance.now) }
    ensures { IfOk result (λ g. g ≡ regrouped instance.now groups.now) }
{
    let plain = plain_grammar(alloc, instance)?;
    day_grammar(alloc, plain, groups)
}

/// Returns the day with these groups, head counts and cells in place of its own.
///
/// # Errors
///
/// `Memory` where memory runs out.
pub(crate) fn with_parts(
    alloc: Global,
    instance: &Instance,
    groups: List<Group>,
    heads: Heads,
    cells: List<Cell>,
) -> Result<Instance, Memory>
    requires { IsPlain (rules_of instance.now) }
    ensures { IfOk result (λ day. day ≡ record {
      grammar = regrouped instance.now groups;
      heads_min = heads.least;
      heads_max = heads.most;
      groups = groups;
      cells = cells;
    }) }
{
    let grammar = regrouped(alloc, instance, groups.as_slice())?;
    Ok(Instance {
        grammar,
        heads_min: heads.least,
        heads_max: heads.most,
        groups,
        cells,
    })
}

// How many more employees may work on a day without groups.
fn all_left(instance: &Instance, shifts: &[Shift]) -> Heads
    requires { length shifts.now ≤ 64 }
    ensures least { result.least ≡ least_left instance.now (duties shifts.now) [] }
    ensures most { result.most ≡ most_left instance.now (duties shifts.now) [] }
{
    let kept = kept_of(shifts, 0);
    Heads {
        least: instance.heads_min.saturating_sub(kept),
        most: instance.heads_max.saturating_sub(kept),
    }
}

/// Returns how many more employees may work beside the shifts, at most 64, where these are the groups that
/// are left.
pub(crate) fn heads_left(instance: &Instance, shifts: &[Shift], left: &[Group]) -> Heads
    requires sound { IsSoundInstance instance.now }
    requires few { length shifts.now ≤ 64 }
    requires left { left.now ≡ groups_left 1 (duties shifts.now) instance.now.groups }
    ensures least { result.least ≡ least_left instance.now (duties shifts.now) instance.now.groups }
    ensures most { result.most ≡ most_left instance.now (duties shifts.now) instance.now.groups }
{
    if instance.groups.is_empty() {
        return all_left(instance, shifts);
    }
    Heads {
        least: least_heads(left) as u32,
        most: most_heads(left) as u32,
    }
}
