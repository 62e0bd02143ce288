//! The relaxed day.

ghost use Rattle.std.specs.Prelude.{◌≡◌, IfOk, map};
ghost use Rattle.model_rosters.specs.SoundInstance.{IsSoundInstance};
ghost use Rattle.text_relaxed_days.specs.Relaxed.{relaxed_cell, relaxed_demand};

use crate::kind::Kind;
use model_rosters::{Cell, Instance, List, Memory};
use std::alloc::Global;

/// The ceiling that binds no roster.
const FREE_CEILING: u32 = 64;

// Returns the cell whose floor, or ceiling, is its need, at a penalty of 1.
fn relaxed_cell(kind: Kind, cell: Cell) -> Cell
    ensures { result ≡ relaxed_cell kind cell }
{
    match kind {
        Kind::Floors => Cell {
            need: cell.floor,
            under: 1,
            over: 0,
            floor: 0,
            ..cell
        },
        Kind::Ceilings => Cell {
            need: cell.ceiling,
            under: 0,
            over: 1,
            ceiling: FREE_CEILING,
            ..cell
        },
    }
}

// Returns such cells.
fn relaxed_cells(alloc: Global, kind: Kind, cells: &[Cell]) -> Result<List<Cell>, Memory>
    ensures { IfOk result (λ relaxed. relaxed ≡ map (relaxed_cell kind) cells.now) }
{
    let mut relaxed = List::new(alloc);
    for cell in cells {
        relaxed.push(relaxed_cell(kind, *cell))?;
    }
    Ok(relaxed)
}

/// Returns the day on which the floors, or the ceilings, are needs: each employee who is missing, or beyond,
/// costs 1 in a period. The other bounds, the rules and how many employees work stay; what was needed goes.
///
/// # Errors
///
/// `Memory` where memory runs out.
pub fn relaxed_demand(alloc: Global, kind: Kind, instance: Instance) -> Result<Instance, Memory>
    ensures is { IfOk result (λ day. day ≡ relaxed_demand kind instance) }
    ensures sound { IsSoundInstance instance → IfOk result IsSoundInstance }
{
    let cells = relaxed_cells(alloc, kind, instance.cells.as_slice())?;
    Ok(Instance { cells, ..instance })
}
