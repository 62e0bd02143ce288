//! The Hungarian method.

use model_rosters::Memory;
use std::alloc::{AllocError, Global};

// The item at a place, or another past the end.
fn item_at<T: Copy>(items: &[T], place: usize, other: T) -> T {
    match items.get(place) {
        Some(item) => *item,
        None => other,
    }
}

// Sets the item at a place, if there is one.
fn set_at<T: Copy>(items: &mut [T], place: usize, value: T) {
    if let Some(item) = items.get_mut(place) {
        *item = value;
    }
}

// Sets all items to one value.
fn set_all<T: Copy>(items: &mut [T], value: T) {
    for item in items.iter_mut() {
        *item = value;
    }
}

// Adds to the number at a place, if there is one.
fn add_at(numbers: &mut [i64], place: usize, value: i64) {
    if let Some(number) = numbers.get_mut(place) {
        *number = number.saturating_add(value);
    }
}

/// The columns that a walk from a new row has seen.
#[derive(Debug, Drop)]
struct Walk {
    seen: Vec<bool>,
    // What each column lacks to be as good as the best, and from which column that was found.
    lacks: Vec<i64>,
    from: Vec<usize>,
}

// The column that lacks least, and what it lacks.
#[derive(Clone, Copy, Debug, Drop)]
struct Nearest {
    column: usize,
    lack: i64,
}

/// The least costly assignment of rows to columns, by the Hungarian method. Rows and columns count from 1:
/// row 0 is no row, and column 0 is that of the row that is added. Nothing is claimed of what is found.
#[derive(Debug, Drop)]
pub struct Board {
    width: usize,
    costs: Vec<i64>,
    rows: Vec<i64>,
    columns: Vec<i64>,
    owners: Vec<usize>,
    walk: Walk,
}

// A walk that has seen nothing.
fn make_walk(alloc: Global, width: usize) -> Result<Walk, AllocError> {
    Ok(Walk {
        seen: vec![in alloc; false; width]?,
        lacks: vec![in alloc; 0i64; width]?,
        from: vec![in alloc; 0usize; width]?,
    })
}

// A board without costs.
fn make_board(alloc: Global, height: usize, width: usize) -> Result<Board, AllocError> {
    Ok(Board {
        width,
        costs: Vec::new(alloc),
        rows: vec![in alloc; 0i64; height]?,
        columns: vec![in alloc; 0i64; width]?,
        owners: vec![in alloc; 0usize; width]?,
        walk: make_walk(alloc, width)?,
    })
}

impl Board {
    /// Returns a board of so many rows and columns, counted with row and column 0, that has no costs yet.
    ///
    /// # Errors
    ///
    /// `Memory` where memory runs out.
    pub fn new(alloc: Global, height: usize, width: usize) -> Result<Board, Memory> {
        match make_board(alloc, height, width) {
            Ok(board) => Ok(board),
            Err(_) => Err(Memory),
        }
    }

    /// Adds the cost of the next column of the next row.
    ///
    /// # Errors
    ///
    /// `Memory` where memory runs out.
    pub fn push_cost(&mut self, cost: i64) -> Result<(), Memory> {
        match self.costs.push(cost) {
            Ok(()) => Ok(()),
            Err(_) => Err(Memory),
        }
    }

    /// Returns the cost of a row and a column.
    pub fn cost(&self, row: usize, column: usize) -> i64 {
        let place = row.saturating_mul(self.width).saturating_add(column);
        item_at(self.costs.as_slice(), place, 0)
    }

    /// Returns which row has a column, or 0.
    pub fn owner(&self, column: usize) -> usize {
        item_at(self.owners.as_slice(), column, 0)
    }

    /// Returns the price of a row, without its sign.
    pub fn row_price(&self, row: usize) -> u64 {
        item_at(self.rows.as_slice(), row, 0).unsigned_abs()
    }

    /// Returns the price of a column, without its sign.
    pub fn column_price(&self, column: usize) -> u64 {
        item_at(self.columns.as_slice(), column, 0).unsigned_abs()
    }

    // What a column lacks to be as good for a row as its price says.
    fn lack(&self, row: usize, column: usize) -> i64 {
        let row_price = item_at(self.rows.as_slice(), row, 0);
        let column_price = item_at(self.columns.as_slice(), column, 0);
        self.cost(row, column)
            .saturating_sub(row_price)
            .saturating_sub(column_price)
    }

    // Whether the walk has seen a column.
    fn is_seen(&self, column: usize) -> bool {
        item_at(self.walk.seen.as_slice(), column, true)
    }

    // Keeps what a column lacks, where it is less than before.
    fn note(&mut self, column: usize, lack: i64, from: usize) {
        if lack < item_at(self.walk.lacks.as_slice(), column, 0) {
            set_at(self.walk.lacks.as_mut_slice(), column, lack);
            set_at(self.walk.from.as_mut_slice(), column, from);
        }
    }

    // Looks from a column's row at all columns that were not seen, and returns the nearest.
    fn look(&mut self, from: usize) -> Nearest {
        let row = self.owner(from);
        let mut nearest = Nearest {
            column: 0,
            lack: i64::MAX,
        };
        for column in 1..self.width {
            if !self.is_seen(column) {
                let lack = self.lack(row, column);
                self.note(column, lack, from);
                let least = item_at(self.walk.lacks.as_slice(), column, 0);
                if least < nearest.lack {
                    nearest = Nearest {
                        column,
                        lack: least,
                    };
                }
            }
        }
        nearest
    }

    // Changes the prices of what was seen, so that the nearest column lacks nothing.
    fn change_prices(&mut self, lack: i64) {
        let less = 0i64.saturating_sub(lack);
        for column in 0..self.width {
            if self.is_seen(column) {
                let row = self.owner(column);
                add_at(self.rows.as_mut_slice(), row, lack);
                add_at(self.columns.as_mut_slice(), column, less);
            } else {
                add_at(self.walk.lacks.as_mut_slice(), column, less);
            }
        }
    }

    // Goes on from a column to the nearest.
    fn step(&mut self, column: usize) -> usize {
        set_at(self.walk.seen.as_mut_slice(), column, true);
        let nearest = self.look(column);
        self.change_prices(nearest.lack);
        nearest.column
    }

    // Walks to a column that no row has.
    fn reach(&mut self) -> usize {
        let mut column = 0;
        for _step in 0..self.width {
            column = self.step(column);
            if self.owner(column) == 0 {
                break;
            }
        }
        column
    }

    // Gives each column on the way back to the row from which it was found.
    fn hand_on(&mut self, end: usize) {
        let mut column = end;
        for _step in 0..self.width {
            if column == 0 {
                break;
            }
            let before = item_at(self.walk.from.as_slice(), column, 0);
            let row = self.owner(before);
            set_at(self.owners.as_mut_slice(), column, row);
            column = before;
        }
    }

    // Gives a column to a further row.
    fn add_row(&mut self, row: usize) {
        set_all(self.walk.seen.as_mut_slice(), false);
        set_all(self.walk.lacks.as_mut_slice(), i64::MAX);
        set_at(self.owners.as_mut_slice(), 0, row);
        let end = self.reach();
        self.hand_on(end);
    }

    /// Gives a column to each row, so that all cost the least.
    pub fn assign(&mut self) {
        for row in 1..self.rows.len() {
            self.add_row(row);
        }
    }
}
