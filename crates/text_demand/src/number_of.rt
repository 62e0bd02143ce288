//! One number of each cell.

ghost use Rattle.std.specs.Prelude.{◌≡◌, ◌==◌, ◌++◌, map, OnOk};
ghost use Rattle.std.specs.List.{list_all};
ghost use Rattle.text_demand.specs.Written.{number_of, numbers_of, are_all};
ghost use Rattle.text_lines.specs.Written.{tail};

use model_rosters::{Cell, List, Memory};
use text_lines::field;

/// A number of a cell.
#[derive(Clone, Copy, Drop)]
pub enum NumberOf {
    Need,
    Floor,
    Ceiling,
}

// The number of a cell.
fn number_of(which: NumberOf, cell: &Cell) -> u32
    ensures { result ≡ number_of which cell.now }
{
    match which {
        NumberOf::Need => cell.need,
        NumberOf::Floor => cell.floor,
        NumberOf::Ceiling => cell.ceiling,
    }
}

/// Whether each cell has this number.
pub fn are_all(which: NumberOf, value: u32, cells: &[Cell]) -> bool
    ensures { result ≡ are_all which value cells.now }
{
    cells.iter().all(|cell| number_of(which, cell) == value)
}

/// Appends the number of each cell.
///
/// # Errors
///
/// `Memory` where memory runs out; a part may stand in `out` then.
pub fn numbers(out: &mut List<u8>, which: NumberOf, cells: &[Cell]) -> Result<(), Memory>
    ensures { OnOk result (out.new ≡ out.old ++ tail (numbers_of which cells.now)) }
{
    for cell in cells {
        field(out, number_of(which, cell) as u64)?;
    }
    Ok(())
}
