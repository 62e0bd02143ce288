//! Columns that are listed under numbers.

use crate::state::State;
use lp_float_basis::{Sign, Standing};
use model_rosters::Memory;

impl State {
    /// Lists a column without entries, which may enter.
    ///
    /// # Errors
    ///
    /// `Memory` where memory runs out; nothing is said of the program then.
    pub fn add_free(&mut self, cost: i64) -> Result<(), Memory> {
        self.add_column(cost, Standing::Free)
    }

    /// Lists a column without entries.
    fn add_column(&mut self, cost: i64, standing: Standing) -> Result<(), Memory> {
        self.columns.add(cost, standing)?;
        self.figures.add()
    }

    /// Adds an entry to the last column, in a row behind those of its other entries.
    ///
    /// # Errors
    ///
    /// `Memory` where memory runs out; nothing is said of the program then.
    pub fn add_entry(&mut self, row: u32, sign: Sign) -> Result<(), Memory> {
        self.columns.add_entry(row, sign)
    }

    /// Lists the column of one entry.
    ///
    /// # Errors
    ///
    /// `Memory` where memory runs out; nothing is said of the program then.
    pub(crate) fn add_unit(
        &mut self,
        cost: i64,
        row: u32,
        sign: Sign,
        standing: Standing,
    ) -> Result<(), Memory> {
        self.add_column(cost, standing)?;
        self.add_entry(row, sign)
    }
}
