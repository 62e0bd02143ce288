//! The cells beside the kept shifts, and what overstaffing costs.

ghost use Rattle.std.specs.Prelude.{◌≡◌, ◌≤◌, ◌*◌, All, IfOk, length, map};
ghost use Rattle.model_rosters.specs.Coverage.{covered, overstaffing};
ghost use Rattle.model_rosters.specs.Folds.{sum_n};
ghost use Rattle.model_rosters.specs.Limits.{IsDayCell};
ghost use Rattle.model_rosters.specs.SoundInstance.{IsSoundInstance};
ghost use Rattle.check_certificates.specs.RosterCauses.{duties};
ghost use Rattle.check_values.specs.remaining_day.Remaining.{ceiling_left, cell_left, kept_penalty};

use model_rosters::{Cell, Grammar, Instance, List, Memory, Shift, covered};
use std::alloc::Global;

/// The ceiling that binds no roster.
const FREE_CEILING: u32 = 64;

// Returns what is left of a ceiling beside so many; a ceiling that binds no roster stays.
fn ceiling_left(ceiling: u32, there: u32) -> u32
    ensures { result ≡ ceiling_left ceiling there }
{
    if ceiling == FREE_CEILING {
        FREE_CEILING
    } else {
        ceiling.saturating_sub(there)
    }
}

// Returns what is left of a cell beside the shifts.
fn cell_left(grammar: &Grammar, shifts: &[Shift], cell: &Cell) -> Cell
    requires cell { IsDayCell grammar.now cell.now }
    requires few { length shifts.now ≤ 64 }
    ensures { result ≡ cell_left grammar.now (duties shifts.now) cell.now }
{
    let there = covered(grammar, shifts, cell);
    Cell {
        need: cell.need.saturating_sub(there),
        floor: cell.floor.saturating_sub(there),
        ceiling: ceiling_left(cell.ceiling, there),
        ..*cell
    }
}

/// Returns the cells beside the shifts, at most 64.
///
/// # Errors
///
/// `Memory` where memory runs out.
pub(crate) fn cells_left(
    alloc: Global,
    grammar: &Grammar,
    shifts: &[Shift],
    cells: &[Cell],
) -> Result<List<Cell>, Memory>
    requires cells { All (IsDayCell grammar.now) cells.now }
    requires few { length shifts.now ≤ 64 }
    ensures { IfOk result (λ left. left ≡ map (cell_left grammar.now (duties shifts.now)) cells.now) }
{
    let mut left = List::new(alloc);
    for cell in cells {
        left.push(cell_left(grammar, shifts, cell))?;
    }
    Ok(left)
}

// What the overstaffing of the shifts at a cell costs.
fn overstaffing_cost(grammar: &Grammar, shifts: &[Shift], cell: &Cell) -> u64
    requires cell { IsDayCell grammar.now cell.now }
    requires few { length shifts.now ≤ 64 }
    ensures value { result
        ≡ cell.now.over * overstaffing cell.now (covered grammar.now cell.now (duties shifts.now)) }
    ensures small { result ≤ 640000 }
{
    let beyond = covered(grammar, shifts, cell).saturating_sub(cell.need);
    u64::from(cell.over) * u64::from(beyond)
}

// Returns what the shifts cost by covering cells beyond their needs.
fn overstaffing_costs(grammar: &Grammar, shifts: &[Shift], cells: &[Cell]) -> u64
    requires cells { All (IsDayCell grammar.now) cells.now }
    requires few_cells { length cells.now ≤ 768 }
    requires few { length shifts.now ≤ 64 }
    ensures { result
        ≡ sum_n (λ c. c.over * overstaffing c (covered grammar.now c (duties shifts.now))) cells.now }
{
    let mut sum = 0;
    for cell in cells {
        sum += overstaffing_cost(grammar, shifts, cell);
    }
    sum
}

/// Returns what the overstaffing of the shifts, at most 64, costs, with nobody beside them.
pub(crate) fn kept_penalty(instance: &Instance, shifts: &[Shift]) -> u64
    requires sound { IsSoundInstance instance.now }
    requires few { length shifts.now ≤ 64 }
    ensures { result ≡ kept_penalty instance.now (duties shifts.now) }
{
    overstaffing_costs(&instance.grammar, shifts, instance.cells.as_slice())
}
