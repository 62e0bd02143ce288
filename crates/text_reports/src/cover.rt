//! How a cell is covered.

ghost use Rattle.std.specs.Prelude.{◌≡◌, ◌≤◌, ◌++◌, All, length, map, OnOk};
ghost use Rattle.check_certificates.specs.RosterCauses.{duties};
ghost use Rattle.model_rosters.specs.Limits.{IsDayCell};
ghost use Rattle.text_reports.specs.Reports.{cell_cover};

use model_rosters::{Cell, Grammar, List, Memory, Shift, covered};

/// How a cell is covered.
#[derive(Clone, Copy, Debug, PartialEq, Eq, Drop)]
pub struct Cover {
    /// How many employees are needed.
    pub need: u32,
    /// How many employees work.
    pub have: u32,
    /// How many employees are missing.
    pub short: u32,
    /// How many employees there are beyond the need.
    pub over: u32,
}

// Returns how a roster covers a cell.
fn cell_cover(grammar: &Grammar, shifts: &[Shift], cell: &Cell) -> Cover
    requires few { length shifts.now ≤ 64 }
    requires cell { IsDayCell grammar.now cell.now }
    ensures { result ≡ cell_cover grammar.now (duties shifts.now) cell.now }
{
    let have = covered(grammar, shifts, cell);
    Cover {
        need: cell.need,
        have,
        short: cell.need.saturating_sub(have),
        over: have.saturating_sub(cell.need),
    }
}

/// Appends how a roster covers each of the cells.
///
/// # Errors
///
/// `Memory` where memory runs out; a part may stand there then.
pub fn add_covers(
    out: &mut List<Cover>,
    grammar: &Grammar,
    cells: &[Cell],
    shifts: &[Shift],
) -> Result<(), Memory>
    requires cells { All (IsDayCell grammar.now) cells.now }
    requires few { length shifts.now ≤ 64 }
    ensures { OnOk result (out.new ≡ out.old ++ map (cell_cover grammar.now (duties shifts.now)) cells.now) }
{
    for cell in cells {
        out.push(cell_cover(grammar, shifts, cell))?;
    }
    Ok(())
}
