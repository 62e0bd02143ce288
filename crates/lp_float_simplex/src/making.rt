//! A program with its memory.

use crate::figures::Figures;
use crate::fixed::{Q24, Q32};
use crate::positions::Positions;
use crate::state::{Answers, Changes, Counts, Sides, State};
use crate::tolerances::Tolerances;
use lp_float_basis::{Basis, Columns, Sign, Standing, Value64, make_zeros};
use model_rosters::Memory;
use std::alloc::{AllocError, Global};
use std::num::nearest_i64_to_f64;

/// Returns two zeros for each row.
fn make_positions(alloc: Global, rows: usize) -> Result<Vec<f64>, AllocError> {
    make_zeros(alloc, rows.saturating_mul(2))
}

/// Returns answers of zeros for so many rows.
fn make_answers(alloc: Global, rows: usize) -> Result<Answers, AllocError> {
    Ok(Answers {
        basis: vec![in alloc; 0usize; rows]?,
        values: vec![in alloc; Q32(0); rows]?,
        prices: vec![in alloc; Q24(0); rows]?,
    })
}

/// Returns a list of the right sides.
fn make_right(alloc: Global, right: &[i64]) -> Result<Vec<Value64>, AllocError> {
    let mut sides = Vec::with_capacity(alloc, right.len())?;
    for side in right {
        sides.push(nearest_i64_to_f64(*side))?;
    }
    Ok(sides)
}

/// Returns what is kept of no column.
fn blank_figures(alloc: Global) -> Figures {
    Figures {
        reduced: Vec::new(alloc),
        weights: Vec::new(alloc),
        entries: Vec::new(alloc),
        touched: Vec::new(alloc),
    }
}

/// Returns no sides.
fn blank_sides(alloc: Global) -> Sides {
    Sides {
        right: Vec::new(alloc),
        perturbations: Vec::new(alloc),
    }
}

/// Returns what is kept of no position.
fn blank_positions(alloc: Global) -> Positions {
    Positions {
        values: Vec::new(alloc),
        weights: Vec::new(alloc),
        has_weights: false,
    }
}

/// Returns no answers.
fn blank_answers(alloc: Global) -> Answers {
    Answers {
        basis: Vec::new(alloc),
        values: Vec::new(alloc),
        prices: Vec::new(alloc),
    }
}

/// Returns a program without rows or columns.
fn make_blank(alloc: Global) -> State {
    State {
        sides: blank_sides(alloc),
        columns: Columns::new(alloc),
        basis: Basis::blank(alloc),
        figures: blank_figures(alloc),
        positions: blank_positions(alloc),
        prices: Vec::new(alloc),
        changes: Changes {
            priced: 0,
            is_stale: true,
            is_mispriced: true,
        },
        counts: Counts {
            drift: 0,
            since: 0,
            pivots: 0,
        },
        tolerances: Tolerances::usual(),
        is_careful: false,
        answers: blank_answers(alloc),
    }
}

impl State {
    /// Takes the right sides, with zeros for what else is kept of rows.
    fn take_right(&mut self, alloc: Global, right: &[i64]) -> Result<(), AllocError> {
        let rows = right.len();
        self.sides.right = make_right(alloc, right)?;
        self.sides.perturbations = make_zeros(alloc, rows)?;
        self.positions.values = make_positions(alloc, rows)?;
        self.positions.weights = make_positions(alloc, rows)?;
        self.prices = make_zeros(alloc, rows)?;
        Ok(())
    }

    /// Takes the right sides, and makes room for as many rows and for what they answer.
    fn take_rows(&mut self, alloc: Global, right: &[i64]) -> Result<(), AllocError> {
        self.take_right(alloc, right)?;
        self.basis.take_rows(alloc, right.len())?;
        self.answers = make_answers(alloc, right.len())?;
        Ok(())
    }
}

impl State {
    /// Lists the columns of what is missing.
    fn add_missing(&mut self, missing: &[i64]) -> Result<(), Memory> {
        let mut row = 0u32;
        for cost in missing {
            self.add_unit(*cost, row, Sign::Plus, Standing::Free)?;
            row = row.saturating_add(1);
        }
        Ok(())
    }

    /// Lists the columns of what is beyond.
    fn add_beyond(&mut self, beyond: &[Option<i64>]) -> Result<(), Memory> {
        let mut row = 0u32;
        for cost in beyond {
            match cost {
                Some(cost) => self.add_unit(*cost, row, Sign::Minus, Standing::Free)?,
                None => self.add_unit(0, row, Sign::Minus, Standing::Barred)?,
            }
            row = row.saturating_add(1);
        }
        Ok(())
    }
}

impl State {
    /// Takes the right sides, lists the columns of what is missing and of what is beyond, and perturbs.
    fn begin(
        &mut self,
        alloc: Global,
        right: &[i64],
        missing: &[i64],
        beyond: &[Option<i64>],
    ) -> Result<(), Memory> {
        self.take_rows(alloc, right)?;
        self.add_missing(missing)?;
        self.add_beyond(beyond)?;
        self.perturb(missing, beyond);
        Ok(())
    }

    /// Returns a program with these right sides, perturbed, whose columns are those of what is missing in
    /// each row, of entry 1, and of what is beyond, of entry -1, where they cost this.
    ///
    /// # Errors
    ///
    /// `Memory` where memory runs out; nothing is kept then.
    pub fn new(
        alloc: Global,
        right: &[i64],
        missing: &[i64],
        beyond: &[Option<i64>],
    ) -> Result<State, Memory> {
        let mut state = make_blank(alloc);
        state.begin(alloc, right, missing, beyond)?;
        Ok(state)
    }
}
