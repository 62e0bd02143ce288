//! Which rows have a wanted basic column.

use model_rosters::Memory;
use std::alloc::Global;

/// Which rows of a tableau have a basic column that is wanted. It steers the pivots, and no contract
/// speaks of it.
#[derive(Drop)]
pub(crate) struct Marks {
    rows: Vec<bool>,
}

/// Says whether a column is among these.
pub(crate) fn is_among(columns: &[u32], column: usize) -> bool {
    columns.iter().any(|number| *number as usize == column)
}

impl Marks {
    /// Marks each row below a bound whose number is among the wanted columns.
    ///
    /// # Errors
    ///
    /// `Memory` where memory runs out; nothing is kept then.
    pub(crate) fn below(alloc: Global, wanted: &[u32], bound: usize) -> Result<Marks, Memory> {
        let mut rows = Vec::new(alloc);
        for row in 0..bound {
            rows.push(is_among(wanted, row))?;
        }
        Ok(Marks { rows })
    }

    /// Says whether a row is marked.
    pub(crate) fn holds(&self, row: usize) -> bool {
        row < self.rows.len() && self.rows[row]
    }

    /// Marks a row, or takes its mark away.
    pub(crate) fn set(&mut self, row: usize, is_wanted: bool) {
        if row < self.rows.len() {
            self.rows[row] = is_wanted;
        }
    }
}
