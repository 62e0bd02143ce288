//! The cells of all need lines.

ghost use Rattle.std.specs.Prelude.{◌≡◌, ◌≤◌, ◌++◌, All, length, map, IfOk, OnOk};
ghost use Rattle.model_rosters.specs.Demands.{demand_cells, all_cells};
ghost use Rattle.model_rosters.specs.Folds.{Each};
ghost use Rattle.text_demand.specs.InstanceOf.{demand_of};

use crate::bound::bound_of;
use model_rosters::{Cell, List, Memory};
use std::alloc::Global;
use text_demand_lines::{Bound, Need};

// Adds the cells of a need line.
fn push_cells(
    cells: &mut List<Cell>,
    need: &Need,
    least: &[Bound],
    most: &[Bound],
) -> Result<(), Memory>
    requires { length need.now.counts ≤ 96 }
    ensures { OnOk result (cells.new ≡ cells.old ++ demand_cells (demand_of least.now most.now need.now)) }
{
    for (place, count) in need.counts.as_slice().iter().enumerate() {
        cells.push(Cell {
            code: need.code,
            period: place as u8 + 1,
            need: *count,
            under: need.under,
            over: need.over,
            floor: bound_of(least, need.code, place, 0),
            ceiling: bound_of(most, need.code, place, 64),
        })?;
    }
    Ok(())
}

/// Returns the cells of all need lines, in their order.
///
/// # Errors
///
/// `Memory` where memory runs out; nothing is kept then.
pub fn cells(
    alloc: Global,
    needs: &[Need],
    least: &[Bound],
    most: &[Bound],
) -> Result<List<Cell>, Memory>
    requires { All (λ (n : Need). length n.counts ≤ 96) needs.now }
    ensures { IfOk result (λ cells. cells ≡ all_cells (map (demand_of least.now most.now) needs.now)) }
{
    let mut cells = List::new(alloc);
    for need in needs {
        push_cells(&mut cells, need, least, most)?;
    }
    Ok(cells)
}
