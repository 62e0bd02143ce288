//! What pinned counts cost.

ghost use Rattle.std.specs.Prelude.{◌≡◌, ◌≤◌, ◌*◌, All, MatchOption, length};
ghost use Rattle.model_rosters.specs.declared.grammar.Grammar.{Grammar as Rules};
ghost use Rattle.model_rosters.specs.declared.instance.Cell.{Cell as DayCell};
ghost use Rattle.model_rosters.specs.Coverage.{penalty};
ghost use Rattle.model_rosters.specs.Folds.{sum_n};
ghost use Rattle.model_rosters.specs.SoundInstance.{IsSoundInstance};
ghost use Rattle.law_bounds.specs.Pinned.{IsPinnedValue};
ghost use Rattle.tree_span_arcs.specs.DayArcs.{IsDayArcsOf};
ghost use Rattle.model_rosters.specs.Limits.{IsSmallCut};
ghost use Rattle.check_parts.specs.pinned_part.Net.{AreAllowed, cell_size};
ghost use Rattle.check_parts.specs.pinned_part.Places.{place_count};
ghost use Rattle.check_parts.specs.pinned_part.Rooms.{IsRoomFor};

use crate::pinned_part::balances::Balances;
use crate::pinned_part::judging::{are_heads, are_zero};
use crate::pinned_part::penalties::penalties;
use crate::pinned_part::walk::count_arcs;
use model_rosters::{Cut, Instance, greatest_cost};
use tree_span_arcs::DayArcs;

/// Returns the penalties of the cells at the numbers at the places, `None` exactly where these are the
/// numbers of no allowed roster: where a name or suffix but the root is not balanced, the root's
/// number is not in the range of the heads, or a cell's is outside its floor and ceiling.
pub fn allowed_penalties(instance: &Instance, nodes: &[i64]) -> Option<u64>
    requires sound { IsSoundInstance instance.now }
    requires length { length nodes.now ≡ place_count instance.now.grammar }
    ensures { MatchOption result (AreAllowed instance.now nodes.now → ⊥)
        (λ p. AreAllowed instance.now nodes.now
        × (p ≡ sum_n (λ (c : DayCell). penalty c (cell_size instance.now.grammar nodes.now c))
        instance.now.cells)
        × (p ≤ 640000 * 768)) }
{
    let grammar = &instance.grammar;
    if !are_zero(grammar, nodes) {
        return None;
    }
    if !are_heads(instance, nodes) {
        return None;
    }
    penalties(grammar, nodes, instance.cells.as_slice())
}

/// Returns the pinned value of a path of cuts: the cost of the least counts that the cuts leave the
/// arcs, or one more than the greatest cost where these are the counts of no allowed roster. Where
/// the cuts leave each arc one count, it is the cost of each roster that meets them.
///
/// The arcs are those of the instance's grammar, and the room was made for it. Takes no memory.
pub fn pinned_value(
    instance: &Instance,
    cuts: &[Cut],
    arcs: &DayArcs,
    balances: &mut Balances,
) -> u64
    requires sound { IsSoundInstance instance.now }
    requires small { All IsSmallCut cuts.now }
    requires arcs { IsDayArcsOf instance.now.grammar arcs.now }
    requires room { IsRoomFor instance.now.grammar balances.old }
    ensures value { IsPinnedValue instance.now cuts.now result }
    ensures room { (g : Rules) → IsRoomFor g balances.old → IsRoomFor g balances.new }
{
    let nodes = balances.nodes.as_mut_slice();
    let cost = count_arcs(&instance.grammar, cuts, arcs, nodes);
    match allowed_penalties(instance, nodes) {
        Some(penalties) => cost + penalties,
        None => greatest_cost(instance) + 1,
    }
}
