//! Why a line has no cells.

use model_rosters::{List, Memory};

/// Why a line has no cells.
#[derive(Debug, PartialEq, Eq, Drop)]
pub enum CellFault {
    /// Its bytes are no UTF-8.
    NoUtf8,
    /// It has a control sign.
    ControlSign,
    /// A quotation mark that nothing closes.
    Unclosed,
    /// This stands behind a cell in quotation marks, before the next cell.
    Behind { word: List<u8> },
    /// Memory ran out; the line may be right or wrong.
    Memory,
}

impl From<Memory> for CellFault {
    ghost use Rattle.std.specs.Prelude.{◌≡◌};
    ghost use Rattle.plan_cells.specs.declared.fault.CellFault.TheVariants.{Memory as out_of_memory};

    ghost from_gives = { λ _ fault. fault ≡ out_of_memory };

    // Want of memory says nothing of the line.
    fn from(_memory: Memory) -> CellFault {
        CellFault::Memory
    }
}
