//! The penalties of the cells.

ghost use Rattle.std.specs.Prelude.{◌≡◌, ◌≤◌, ◌*◌, ◌↔◌, All, IsTrue, MatchOption, length};
ghost use Rattle.model_rosters.specs.declared.instance.Cell.{Cell as DayCell};
ghost use Rattle.model_rosters.specs.Coverage.{penalty, IsWithinCell};
ghost use Rattle.model_rosters.specs.Folds.{sum_n, Each};
ghost use Rattle.model_rosters.specs.Limits.{IsDayCell};
ghost use Rattle.model_rosters.specs.Sound.{IsSound};
ghost use Rattle.check_parts.specs.pinned_part.Places.{place_count};
ghost use Rattle.check_parts.specs.pinned_part.Net.{cell_size};

use crate::pinned_part::judging::size_at;
use crate::pinned_part::places::letter_place;
use model_rosters::{Cell, Grammar, penalty};

// Whether a count is within a cell's floor and ceiling.
fn is_within(cell: &Cell, count: u64) -> bool
    ensures { IsTrue result ↔ IsWithinCell cell.now count }
{
    u64::from(cell.floor) <= count && count <= u64::from(cell.ceiling)
}

// The penalty of a cell at the count of its letter, none where it is outside floor and ceiling.
fn cell_penalty(grammar: &Grammar, nodes: &[i64], cell: &Cell) -> Option<u64>
    requires sound { IsSound grammar.now }
    requires length { length nodes.now ≡ place_count grammar.now }
    requires cell { IsDayCell grammar.now cell.now }
    ensures value { let n = cell_size grammar.now nodes.now cell.now in
        MatchOption result (IsWithinCell cell.now n → ⊥)
        (λ p. IsWithinCell cell.now n × (p ≡ penalty cell.now n) × (p ≤ 640000)) }
{
    let count = size_at(nodes, letter_place(grammar, cell.code, cell.period));
    if is_within(cell, count) {
        Some(penalty(cell, count as u32))
    } else {
        None
    }
}

/// Returns the penalties of all cells at the counts of their letters, none where one is outside its
/// floor and ceiling.
pub fn penalties(grammar: &Grammar, nodes: &[i64], cells: &[Cell]) -> Option<u64>
    requires sound { IsSound grammar.now }
    requires length { length nodes.now ≡ place_count grammar.now }
    requires cells { All (IsDayCell grammar.now) cells.now }
    requires few { length cells.now ≤ 768 }
    ensures { let within = Each (λ (c : DayCell). IsWithinCell c (cell_size grammar.now nodes.now c))
        cells.now in
        MatchOption result (within → ⊥)
        (λ p. within × (p ≡ sum_n (λ (c : DayCell). penalty c (cell_size grammar.now nodes.now c)) cells.now)
        × (p ≤ 640000 * length cells.now)) }
{
    let mut sum = 0;
    for cell in cells {
        sum += cell_penalty(grammar, nodes, cell)?;
    }
    Some(sum)
}
