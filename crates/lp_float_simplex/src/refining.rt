//! Values and prices in whole numbers.

use crate::fixed::nearest;
use crate::state::State;
use crate::whole::{
    add_whole_changes, float_of, greatest_size, sum_whole, whole_by_sums, whole_of,
};
use lp_float_basis::{NO_COLUMN, ProductWorkspace, at, make_zeros, place_at, set_all};
use model_rosters::{List, Memory};
use std::alloc::{AllocError, Global};

/// The most rounds of refining.
const ROUNDS: u32 = 4;

/// The number 1 in the units of refined values, 2^-56.
const VALUE_ONE: i128 = 1 << 56;

/// The same as a float.
const VALUE_ONE64: f64 = 72_057_594_037_927_936.0;

/// The number 1 in the units of refined prices, 2^-40.
const PRICE_ONE: i128 = 1 << 40;

/// The same as a float.
const PRICE_ONE64: f64 = 1_099_511_627_776.0;

/// What is refined.
#[derive(Clone, Copy, Drop)]
enum Aim<'a> {
    /// The values of the basic columns.
    Values,
    /// The prices of the rows, where the first columns have these costs.
    Prices(&'a [i64]),
}

/// The room for refining numbers.
#[derive(Drop)]
struct Refining {
    /// The places of the basic columns.
    basis: Vec<usize>,
    /// What is left of each right side, or of the cost of each basic column.
    rest: Vec<i128>,
    /// What was added to each number in the last round.
    steps: Vec<i128>,
    /// What changes from each row to the next, or the sums before each row and behind the last.
    sums: Vec<i128>,
    rest64: Vec<f64>,
    steps64: Vec<f64>,
    room: ProductWorkspace,
}

impl Refining {
    /// Returns the room for the basis of a program.
    fn new(alloc: Global, state: &State) -> Result<Refining, AllocError> {
        let rows = state.rows();
        let mut sums = vec![in alloc; 0i128; rows]?;
        sums.push(0)?;
        Ok(Refining {
            basis: state.list_basis(alloc)?,
            rest: vec![in alloc; 0i128; rows]?,
            steps: vec![in alloc; 0i128; rows]?,
            sums,
            rest64: make_zeros(alloc, rows)?,
            steps64: make_zeros(alloc, rows)?,
            room: ProductWorkspace::new(alloc, rows)?,
        })
    }

    /// Leaves as floats what is left.
    fn round_rest(&mut self) {
        let rest = self.rest.as_slice().iter();
        for (number, rest) in self.rest64.as_mut_slice().iter_mut().zip(rest) {
            *number = float_of(*rest);
        }
    }

    /// Adds the steps to the numbers.
    fn step(&mut self, numbers: &mut [i128]) {
        let steps = self
            .steps
            .as_mut_slice()
            .iter_mut()
            .zip(self.steps64.as_slice());
        for (number, (step, step64)) in numbers.iter_mut().zip(steps) {
            *step = whole_of(*step64);
            *number = number.saturating_add(*step);
        }
    }

    /// Takes the steps off the numbers again.
    fn step_back(&self, numbers: &mut [i128]) {
        for (number, step) in numbers.iter_mut().zip(self.steps.as_slice()) {
            *number = number.saturating_sub(*step);
        }
    }
}

impl State {
    /// Lists the places of the basic columns.
    fn list_basis(&self, alloc: Global) -> Result<Vec<usize>, AllocError> {
        let rows = self.rows();
        let mut basis = Vec::with_capacity(alloc, rows)?;
        for place in self.basis.listed() {
            basis.push(*place)?;
        }
        for place in self.basis.units() {
            if *place != NO_COLUMN {
                basis.push(*place)?;
            }
        }
        Ok(basis)
    }

    /// Lists the values of the basic columns, as they stand.
    fn list_values(&self, alloc: Global) -> Result<Vec<i128>, AllocError> {
        let rows = self.rows();
        let mut values = Vec::with_capacity(alloc, rows)?;
        for slot in 0..self.basis.size() {
            let value = at(self.positions.values.as_slice(), slot);
            values.push(whole_of(value * VALUE_ONE64))?;
        }
        for row in 0..rows {
            if place_at(self.basis.units(), row) != NO_COLUMN {
                let number = row.saturating_add(rows);
                let value = at(self.positions.values.as_slice(), number);
                values.push(whole_of(value * VALUE_ONE64))?;
            }
        }
        Ok(values)
    }

    /// Lists the prices of the rows, as they stand.
    fn list_prices(&self, alloc: Global) -> Result<Vec<i128>, AllocError> {
        let mut prices = Vec::with_capacity(alloc, self.rows())?;
        for price in self.prices.as_slice() {
            prices.push(whole_of(*price * PRICE_ONE64))?;
        }
        Ok(prices)
    }

    /// Returns the right side of a row without its perturbation, in the units of refined values.
    fn true_side(&self, row: usize) -> i128 {
        let right = at(self.sides.right.as_slice(), row);
        let side = right - at(self.sides.perturbations.as_slice(), row);
        i128::from(nearest(side)).saturating_mul(VALUE_ONE)
    }

    /// Leaves what these values of the basic columns leave of the right sides.
    fn leave_of_sides(&self, values: &[i128], work: &mut Refining) {
        set_all(work.sums.as_mut_slice(), 0);
        for (place, value) in work.basis.as_slice().iter().zip(values) {
            let runs = self.columns.runs_at(*place);
            add_whole_changes(work.sums.as_mut_slice(), runs, *value);
        }
        let mut total = 0i128;
        let changes = work.sums.as_slice().iter();
        let rest = work.rest.as_mut_slice().iter_mut();
        for (row, (rest, change)) in rest.zip(changes).enumerate() {
            total = total.saturating_add(*change);
            *rest = self.true_side(row).saturating_sub(total);
        }
    }

    /// Returns the cost of a column, in the units of refined prices, where the first ones have these costs.
    fn true_cost(&self, first: &[i64], place: usize) -> i128 {
        let cost = match first.get(place) {
            Some(cost) if place < self.rows() => *cost,
            _ => self.columns.cost(place),
        };
        i128::from(cost).saturating_mul(PRICE_ONE)
    }

    /// Leaves what these prices leave of the costs of the basic columns, where the first columns have these
    /// costs.
    fn leave_of_costs(&self, prices: &[i128], first: &[i64], work: &mut Refining) {
        sum_whole(prices, work.sums.as_mut_slice());
        let rest = work.rest.as_mut_slice().iter_mut();
        for (rest, place) in rest.zip(work.basis.as_slice()) {
            let runs = self.columns.runs_at(*place);
            let paid = whole_by_sums(runs, work.sums.as_slice());
            *rest = self.true_cost(first, *place).saturating_sub(paid);
        }
    }

    /// Leaves what numbers leave, and returns its greatest size.
    fn leave(&self, aim: Aim<'_>, numbers: &[i128], work: &mut Refining) -> u128 {
        match aim {
            Aim::Values => self.leave_of_sides(numbers, work),
            Aim::Prices(first) => self.leave_of_costs(numbers, first, work),
        }
        greatest_size(work.rest.as_slice())
    }

    /// Adds to numbers what their basis makes of what they leave.
    fn step_numbers(&self, aim: Aim<'_>, numbers: &mut [i128], work: &mut Refining) {
        work.round_rest();
        let rest = work.rest64.as_slice();
        let steps = work.steps64.as_mut_slice();
        match aim {
            Aim::Values => self.inverse_times(rest, &mut work.room, steps),
            Aim::Prices(_) => self.times_inverse(rest, &mut work.room, steps),
        }
        work.step(numbers);
    }

    /// Refines numbers while what they leave becomes less.
    fn refine(&self, aim: Aim<'_>, numbers: &mut [i128], work: &mut Refining) {
        let mut size = self.leave(aim, numbers, work);
        for _round in 0..ROUNDS {
            if size == 0 {
                return;
            }
            self.step_numbers(aim, numbers, work);
            let next = self.leave(aim, numbers, work);
            if next >= size {
                work.step_back(numbers);
                return;
            }
            size = next;
        }
    }

    /// Returns refined values.
    fn make_values(&self, alloc: Global) -> Result<Vec<i128>, AllocError> {
        let mut work = Refining::new(alloc, self)?;
        let mut values = self.list_values(alloc)?;
        self.refine(Aim::Values, values.as_mut_slice(), &mut work);
        Ok(values)
    }

    /// Returns refined prices, where the first columns have these costs.
    fn make_prices(&self, alloc: Global, first: &[i64]) -> Result<Vec<i128>, AllocError> {
        let mut work = Refining::new(alloc, self)?;
        let mut prices = self.list_prices(alloc)?;
        self.refine(Aim::Prices(first), prices.as_mut_slice(), &mut work);
        Ok(prices)
    }

    /// Returns the values of the basic columns in units of 2^-56, in the order of `basis` after a start or a
    /// run. They are those of the right sides without perturbations, refined in whole numbers.
    ///
    /// # Errors
    ///
    /// `Memory` where memory runs out.
    pub fn refined_values(&self, alloc: Global) -> Result<List<i128>, Memory> {
        let values = self.make_values(alloc)?;
        Ok(List::from_vec(values))
    }

    /// Returns the prices of the rows in units of 2^-40, refined in whole numbers. `missing` has the costs
    /// that count for the columns of what is missing in the first rows; others cost what they cost here.
    ///
    /// # Errors
    ///
    /// `Memory` where memory runs out.
    pub fn refined_prices(&self, alloc: Global, missing: &[i64]) -> Result<List<i128>, Memory> {
        let prices = self.make_prices(alloc, missing)?;
        Ok(List::from_vec(prices))
    }
}
