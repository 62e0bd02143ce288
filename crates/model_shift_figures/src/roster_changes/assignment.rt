//! Choices and prices of two rosters, by the Hungarian method.

ghost use Rattle.std.specs.Prelude.{◌≤◌, length};

use crate::roster_changes::board::Board;
use crate::roster_changes::pairs::is_open;
use crate::roster_changes::prices::Prices;
use crate::roster_changes::scores::pair_score;
use model_rosters::{Memory, Shift};
use std::alloc::{AllocError, Global};

/// Choices for all new shifts, and prices that are to show that they score the most.
#[derive(Debug, Drop)]
pub struct Assignment {
    /// The choice of each new shift.
    pub matching: Vec<Option<u8>>,
    /// The prices.
    pub prices: Prices,
}

// What a pair costs: its score below 0, or 0 where it may not be had.
fn cost_of(
    periods: u8,
    old: &[Shift],
    new: &[Shift],
    fixed: &[Option<u8>],
    at: usize,
    place: usize,
) -> i64 {
    if at >= new.len() || place >= 64 || !is_open(old, new, fixed, at, place as u8) {
        return 0;
    }
    0 - pair_score(periods, old, new, fixed.len(), at, place as u8) as i64
}

// Adds the costs of a row: its pairs from column 1 on, and then columns that stand for no old shift.
fn push_row(
    board: &mut Board,
    periods: u8,
    old: &[Shift],
    new: &[Shift],
    fixed: &[Option<u8>],
    at: usize,
) -> Result<(), Memory> {
    board.push_cost(0)?;
    for place in 0..old.len() {
        board.push_cost(cost_of(periods, old, new, fixed, at, place))?;
    }
    for _none in 0..new.len() {
        board.push_cost(0)?;
    }
    board.push_cost(0)
}

// Adds the costs of row 0, and of each new shift.
fn push_rows(
    board: &mut Board,
    periods: u8,
    old: &[Shift],
    new: &[Shift],
    fixed: &[Option<u8>],
) -> Result<(), Memory> {
    push_row(board, periods, old, new, fixed, new.len())?;
    for at in 0..new.len() {
        push_row(board, periods, old, new, fixed, at)?;
    }
    Ok(())
}

// Reads which row has the column of an old shift.
fn read_choice(board: &Board, place: usize, matching: &mut [Option<u8>]) {
    let column = place.saturating_add(1);
    let row = board.owner(column);
    if board.cost(row, column) < 0 {
        if let Some(chosen) = matching.get_mut(row.saturating_sub(1)) {
            *chosen = u8::try_from(place).ok();
        }
    }
}

// The prices of so many rows.
fn read_rows(alloc: Global, board: &Board, count: usize) -> Result<Vec<u64>, AllocError> {
    let mut prices = Vec::new(alloc);
    for row in 0..count {
        prices.push(board.row_price(row.saturating_add(1)))?;
    }
    Ok(prices)
}

// The prices of so many columns.
fn read_places(alloc: Global, board: &Board, count: usize) -> Result<Vec<u64>, AllocError> {
    let mut prices = Vec::new(alloc);
    for column in 0..count {
        prices.push(board.column_price(column.saturating_add(1)))?;
    }
    Ok(prices)
}

// Reads the choices and the prices.
fn read(
    alloc: Global,
    board: &Board,
    rows: usize,
    places: usize,
) -> Result<Assignment, AllocError> {
    let mut matching = vec![in alloc; None; rows]?;
    for place in 0..places {
        read_choice(board, place, matching.as_mut_slice());
    }
    Ok(Assignment {
        matching,
        prices: Prices {
            rows: read_rows(alloc, board, rows)?,
            places: read_places(alloc, board, places)?,
        },
    })
}

// Assigns, and reads what was found.
fn solve(
    alloc: Global,
    board: &mut Board,
    rows: usize,
    places: usize,
) -> Result<Assignment, Memory> {
    board.assign();
    match read(alloc, board, rows, places) {
        Ok(found) => Ok(found),
        Err(_) => Err(Memory),
    }
}

/// Returns choices that begin with the fixed ones and score the most, and prices that show it. Nothing is
/// claimed of either here: `is_shown` judges them.
///
/// # Errors
///
/// `Memory` where memory runs out.
pub fn assign(
    alloc: Global,
    periods: u8,
    old: &[Shift],
    new: &[Shift],
    fixed: &[Option<u8>],
) -> Result<Assignment, Memory>
    requires few_old { length old.now ≤ 64 }
    requires few_new { length new.now ≤ 64 }
{
    let height = new.len() + 1;
    let width = old.len() + new.len() + 2;
    let mut board = Board::new(alloc, height, width)?;
    push_rows(&mut board, periods, old, new, fixed)?;
    solve(alloc, &mut board, new.len(), old.len())
}
