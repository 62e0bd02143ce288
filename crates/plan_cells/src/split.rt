//! The cells of a line.

ghost use Rattle.std.specs.Prelude.{◌≡◌};
ghost use Rattle.plan_cells.specs.Cells.{are_empty, byte_at, cells_of, no_cell};
ghost use Rattle.plan_cells.specs.Steps.{each, Reads};

use crate::fault::CellFault;
use crate::reading::{Place, Reading};
use model_rosters::List;
use std::alloc::Global;

// Reads all bytes of a line.
fn read(alloc: Global, separator: u8, line: &[u8]) -> Result<Reading, CellFault>
    ensures { Reads (λ r. r) result (each (byte_at separator) no_cell line.now) }
{
    let mut reading = Reading {
        place: Place::Before,
        cell: List::new(alloc),
        cells: List::new(alloc),
    };
    for byte in line {
        reading.take(alloc, separator, *byte)?;
    }
    Ok(reading)
}

/// Reads the texts of the cells of a line, which this byte parts; where it is a space, spaces side by side
/// part cells as one does, and none stands before the first or behind the last.
///
/// # Errors
///
/// `Unclosed` where nothing closes a quotation mark, `Behind` where something stands behind a cell in
/// quotation marks; the first from the left. `Memory` may come at any time.
#[tactic(auto, unfolding(crate::specs::Cells::cells_of))]
pub fn cells(alloc: Global, separator: u8, line: &[u8]) -> Result<List<List<u8>>, CellFault>
    ensures { Reads (λ cells. cells) result (cells_of separator line.now) }
{
    let reading = read(alloc, separator, line)?;
    reading.finish(alloc, separator)
}

/// Returns whether no cell says anything.
pub fn are_empty(cells: &[List<u8>]) -> bool
    ensures { result ≡ are_empty cells.now }
{
    cells.iter().all(|cell| cell.len() == 0)
}
