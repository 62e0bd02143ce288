//! How a code is covered in one period.

ghost use Rattle.std.specs.Prelude.{◌≡◌, ◌≤◌, ◌++◌, All, length, map, OnOk};
ghost use Rattle.model_rosters.specs.Duties.{duty};
ghost use Rattle.model_rosters.specs.Limits.{IsDayCell};
ghost use Rattle.page_text.specs.Columns.{column_of};

use model_rosters::{Cell, Grammar, List, Memory, Shift, covered, penalty};

/// How a code is covered in one period.
#[derive(Clone, Copy, Debug, PartialEq, Eq, Drop)]
pub struct CellCover {
    /// The position of the code in the grammar's `codes`.
    pub code: u8,
    /// The period, from 1.
    pub period: u8,
    /// How many employees are needed.
    pub need: u32,
    /// How many employees work.
    pub have: u32,
    /// How many employees are missing.
    pub short: u32,
    /// How many employees there are beyond the need.
    pub over: u32,
    /// How many employees an allowed roster has at least.
    pub floor: u32,
    /// How many employees an allowed roster has at most.
    pub ceiling: u32,
    /// What the missing or further employees cost.
    pub penalty: u64,
}

// Returns how a roster covers a cell.
fn column_of(grammar: &Grammar, shifts: &[Shift], cell: &Cell) -> CellCover
    requires few { length shifts.now ≤ 64 }
    requires cell { IsDayCell grammar.now cell.now }
    ensures { result ≡ column_of grammar.now (map duty shifts.now) cell.now }
{
    let have = covered(grammar, shifts, cell);
    CellCover {
        code: cell.code,
        period: cell.period,
        need: cell.need,
        have,
        short: cell.need.saturating_sub(have),
        over: have.saturating_sub(cell.need),
        floor: cell.floor,
        ceiling: cell.ceiling,
        penalty: penalty(cell, have),
    }
}

/// Appends how a roster covers each of the cells.
///
/// # Errors
///
/// `Memory` where memory runs out; a part may stand there then.
pub fn add_columns(
    out: &mut List<CellCover>,
    grammar: &Grammar,
    shifts: &[Shift],
    cells: &[Cell],
) -> Result<(), Memory>
    requires cells { All (IsDayCell grammar.now) cells.now }
    requires few { length shifts.now ≤ 64 }
    ensures { OnOk result (out.new ≡ out.old ++ map (column_of grammar.now (map duty shifts.now)) cells.now) }
{
    for cell in cells {
        out.push(column_of(grammar, shifts, cell))?;
    }
    Ok(())
}
