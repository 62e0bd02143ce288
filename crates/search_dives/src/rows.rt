//! A float program with a master's rows.

ghost use Rattle.std.specs.Prelude.{◌≡◌, ◌<◌, length};
ghost use Rattle.lp_master_rows.specs.NodeRows.{AreRows};
ghost use Rattle.lp_master_rows.specs.node_task.Tasks.{row_count};

use lp_float_programs::{FloatProgram, Sign};
use lp_fractions::Place;
use lp_master_rows::{NodeRows, NodeTask};
use model_rosters::Memory;
use std::alloc::Global;

/// What an artificial column costs.
const ARTIFICIAL: i64 = 131_072;

/// Sets the costs of a row's own columns.
fn set_costs(task: &NodeTask, row: usize, missing: &mut [i64], beyond: &mut [Option<i64>])
    requires rows { AreRows task.now.day.instance.now task.now.cuts.now task.now.rows.now }
    requires row { row < row_count task.now }
    ensures missing { length missing.new ≡ length missing.old }
    ensures beyond { length beyond.new ≡ length beyond.old }
{
    if row < missing.len() {
        missing[row] = task.rows.missing_cost(row, ARTIFICIAL);
    }
    if row < beyond.len() {
        beyond[row] = task.rows.beyond_cost(row);
    }
}

/// Returns the right sides of rows, and 0 for so many behind them.
fn sides_of(alloc: Global, rows: &NodeRows, empty: usize) -> Result<Vec<i64>, Memory> {
    let mut sides = Vec::from_slice(alloc, rows.right())?;
    for _ in 0..empty {
        sides.push(0)?;
    }
    Ok(sides)
}

/// Returns a float program with the rows of a node's master, with so many rows without entries behind them,
/// and without trees and a basis.
///
/// # Errors
///
/// `Memory` where memory runs out; nothing is kept then.
pub fn float_program_of(
    alloc: Global,
    task: &NodeTask,
    empty: usize,
) -> Result<FloatProgram, Memory>
    requires { AreRows task.now.day.instance.now task.now.cuts.now task.now.rows.now }
{
    let sides = sides_of(alloc, task.rows, empty)?;
    let count = sides.len();
    let mut missing = vec![in alloc; 0i64; count]?;
    let mut beyond = vec![in alloc; None; count]?;
    for row in 0..task.rows.right().len() {
        set_costs(task, row, missing.as_mut_slice(), beyond.as_mut_slice());
    }
    FloatProgram::new(
        alloc,
        sides.as_slice(),
        missing.as_slice(),
        beyond.as_slice(),
    )
}

/// Lists a column in a float program, with its entries in the order of the rows.
///
/// # Errors
///
/// `Memory` where memory runs out; a part of the column may be listed then.
pub fn list_places(
    float_program: &mut FloatProgram,
    cost: i64,
    places: &[Place],
) -> Result<(), Memory> {
    let _number = float_program.add_column(cost)?;
    for place in places {
        let sign = if place.value < 0 {
            Sign::Minus
        } else {
            Sign::Plus
        };
        float_program.add_entry(place.row, sign)?;
    }
    Ok(())
}

/// Takes an entry of a column off its row's right side.
fn take_place(float_program: &mut FloatProgram, place: &Place, sides: &mut [i64]) {
    let row = place.row as usize;
    if row < sides.len() {
        let side = sides[row].saturating_sub(place.value);
        sides[row] = side;
        float_program.set_right(row, side);
    }
}

/// Takes a column off the right sides.
pub(crate) fn take_places(float_program: &mut FloatProgram, places: &[Place], sides: &mut [i64]) {
    for place in places {
        take_place(float_program, place, sides);
    }
}
