//! The program, and its calls.

ghost use Rattle.std.specs.Prelude.{◌≡◌, ◌≤◌, ◌+◌, ◌<◌, ◌^◌, ◌*ℤ◌, unsigned_abs, length, IfOk, IfSome, OnErr};
ghost use Rattle.lp_float_programs.specs.Sizes.{row_count, listed_count, SameSizes, IsKey};

use lp_float_simplex::{
    FloatSolved, Grown, Key, LastRow, Limits, ProductWorkspace, Q24, Q32, Sign, State, Tolerances,
};
use model_rosters::{List, Memory};
use search_watch::Watch;
use std::alloc::Global;

/// The most columns that are listed.
const COLUMNS: usize = 1_048_576;

/// Returns the product, which has room for a further sum.
fn product(a: i64, b: i64) -> i128
    ensures value { result ≡ a *ℤ b }
    ensures size { unsigned_abs result ≤ 2 ^ 126 }
{
    i128::from(a) * i128::from(b)
}

/// A linear program of rows with right sides and of columns with costs, whose entries are 1 and -1, and
/// a basis of it.
///
/// Each row has a column whose one entry is 1, and perhaps one whose one entry is -1; further columns are
/// listed under numbers from 0 on. What the calls answer is right within tolerances where no number grew,
/// and nothing rests on it.
#[derive(Drop)]
pub struct FloatProgram {
    rows: usize,
    count: usize,
    state: State,
}

impl FloatProgram {
    /// Returns a program with these right sides. `missing` has the cost of each row's column of entry 1,
    /// and `beyond` that of its column of entry -1, where it has one.
    ///
    /// It has no basis before a start.
    ///
    /// # Errors
    ///
    /// `Memory` where memory runs out; nothing is kept then.
    pub fn new(
        alloc: Global,
        right: &[i64],
        missing: &[i64],
        beyond: &[Option<i64>],
    ) -> Result<FloatProgram, Memory>
        ensures rows { IfOk result (λ s. row_count s ≡ length right.now) }
        ensures count { IfOk result (λ s. listed_count s ≡ 0) }
    {
        Ok(FloatProgram {
            rows: right.len(),
            count: 0,
            state: State::new(alloc, right, missing, beyond)?,
        })
    }

    /// Returns the number of rows.
    pub fn rows(&self) -> usize
        ensures { result ≡ row_count self.now }
    {
        self.rows
    }

    /// Returns how many columns are listed.
    pub fn count(&self) -> usize
        ensures { result ≡ listed_count self.now }
    {
        self.count
    }

    /// Lists a column without entries, and returns its number. At most 1,048,576 columns are listed.
    ///
    /// # Errors
    ///
    /// `Memory` where memory runs out, or so many are listed already; rows and listed columns are as many as
    /// before then.
    pub fn add_column(&mut self, cost: i64) -> Result<usize, Memory>
        ensures rows { row_count self.new ≡ row_count self.old }
        ensures number { IfOk result (λ number. number ≡ listed_count self.old) }
        ensures more { IfOk result (λ _. listed_count self.new ≡ listed_count self.old + 1) }
        ensures same { OnErr result (listed_count self.new ≡ listed_count self.old) }
    {
        if self.count >= COLUMNS {
            return Err(Memory);
        }
        let number = self.count;
        self.state.add_free(cost)?;
        self.count = number + 1;
        Ok(number)
    }

    /// Adds an entry to the column that was listed last, in a row behind those of its other entries.
    ///
    /// # Errors
    ///
    /// `Memory` where memory runs out; rows and listed columns are as many as before then.
    pub fn add_entry(&mut self, row: u32, sign: Sign) -> Result<(), Memory>
        ensures { SameSizes self.old self.new }
    {
        self.state.add_entry(row, sign)
    }

    /// Sets the right side of a row; the next run works the values out again. Takes no memory.
    pub fn set_right(&mut self, row: usize, right: i64)
        ensures { SameSizes self.old self.new }
    {
        self.state.set_side(row, right);
    }

    /// Lets further runs be careful: steps with small pivots wait, dual steps begin without negative reduced
    /// costs, and where a number leaves its bounds what nearly depends on others is left out of the basis. So
    /// programs are solved that others end in `Grew` or `Spent`, and in other steps. Takes no memory.
    pub fn be_careful(&mut self)
        ensures { SameSizes self.old self.new }
    {
        self.state.be_careful();
    }

    /// Whether runs are careful.
    pub fn is_careful(&self) -> bool {
        self.state.is_careful()
    }

    /// Sets what the columns of entry 1 and of entry -1 of a row cost, the second one where the row has it;
    /// the next run works the prices out again. A row that there is not is left out. Takes no memory.
    pub fn set_costs(&mut self, row: usize, missing: i64, beyond: Option<i64>)
        ensures { SameSizes self.old self.new }
    {
        if row < self.rows {
            self.state.set_row_costs(row, missing, beyond);
        }
    }

    /// Starts from a basis with these columns, as far as they are listed and independent; in the rows that
    /// are left it has the columns of entry 1. Takes no memory.
    ///
    /// # Errors
    ///
    /// `Grown` where a number is beyond its bound; rows and listed columns are as many as before then.
    pub fn start(&mut self, keys: &[Key]) -> Result<(), Grown>
        ensures { SameSizes self.old self.new }
    {
        self.state.start(keys)
    }

    /// Starts from the columns of entry -1, and in rows without one of those of entry 1: no column has
    /// a negative reduced cost there unless its own cost is negative. Takes no memory.
    ///
    /// # Errors
    ///
    /// `Grown` where a number is beyond its bound; rows and listed columns are as many as before then.
    pub fn start_beyond(&mut self) -> Result<(), Grown>
        ensures { SameSizes self.old self.new }
    {
        self.state.start_beyond()
    }

    /// Starts from the columns of entry 1, and in rows of a negative right side of those of entry -1: no
    /// value is negative there. Takes no memory.
    ///
    /// # Errors
    ///
    /// `Grown` where a number is beyond its bound; rows and listed columns are as many as before then.
    pub fn start_missing(&mut self) -> Result<(), Grown>
        ensures { SameSizes self.old self.new }
    {
        self.state.start_missing()
    }

    /// Takes dual steps while a value is negative, and then primal steps while a listed column has a negative
    /// reduced cost. The watch is asked before each eighth step; where it is over the run ends as if its
    /// steps were taken. Takes no memory.
    pub fn run<W: Watch>(&mut self, limits: Limits, watch: &W) -> FloatSolved
        ensures { SameSizes self.old self.new }
    {
        self.state.run(limits, watch)
    }

    /// Takes the perturbations off the right sides, and runs. Further runs are without them. Takes no memory.
    pub fn settle<W: Watch>(&mut self, limits: Limits, watch: &W) -> FloatSolved
        ensures { SameSizes self.old self.new }
    {
        self.state.settle();
        self.state.run(limits, watch)
    }

    /// Returns what runs take for 0.
    pub fn tolerances(&self) -> Tolerances {
        self.state.tolerances()
    }

    /// Sets what further runs take for 0. Takes no memory.
    pub fn set_tolerances(&mut self, tolerances: Tolerances)
        ensures { SameSizes self.old self.new }
    {
        self.state.set_tolerances(tolerances);
    }

    /// Multiplies what further runs take for 0 by a factor. Takes no memory.
    pub fn tighten(&mut self, factor: f64)
        ensures { SameSizes self.old self.new }
    {
        let tolerances = self.state.tolerances();
        self.state.set_tolerances(tolerances.times(factor));
    }

    /// Returns the column of a place in the program.
    fn key_of(&self, place: usize) -> Option<Key>
        ensures { IfSome result (IsKey self.now) }
    {
        if place < self.rows {
            return Some(Key::Missing(place));
        }
        let behind = place - self.rows;
        if behind < self.rows {
            return Some(Key::Beyond(behind));
        }
        let number = behind - self.rows;
        if number < self.count {
            Some(Key::Listed(number))
        } else {
            None
        }
    }

    /// Returns the column in the basis at a place below the number of rows.
    pub fn basic(&self, place: usize) -> Option<Key>
        ensures { IfSome result (IsKey self.now) }
    {
        match self.state.basis().get(place) {
            Some(column) => self.key_of(*column),
            None => None,
        }
    }

    /// Returns the values of the columns in the basis, by their places.
    pub fn values(&self) -> &[Q32] {
        self.state.values()
    }

    /// Returns the prices of the rows.
    pub fn prices(&self) -> &[Q24] {
        self.state.prices()
    }

    /// Returns the prices of the rows as numbers, in units of 2^-24.
    ///
    /// # Errors
    ///
    /// `Memory` where memory runs out.
    pub fn list_prices(&self, alloc: Global) -> Result<List<i128>, Memory> {
        let mut prices = List::new(alloc);
        for price in self.state.prices() {
            prices.push(i128::from(price.raw()))?;
        }
        Ok(prices)
    }

    /// Returns the values of the columns in the basis after a start or a run, by their places, in units of
    /// 2^-56. They are those of the right sides without perturbations, refined in whole numbers.
    ///
    /// # Errors
    ///
    /// `Memory` where memory runs out.
    pub fn refined_values(&self, alloc: Global) -> Result<List<i128>, Memory> {
        self.state.refined_values(alloc)
    }

    /// Returns the prices of the rows in units of 2^-40, refined in whole numbers. `missing` has the costs
    /// that count for the columns of entry 1 of the first rows; further ones cost what they cost in the
    /// program.
    ///
    /// # Errors
    ///
    /// `Memory` where memory runs out.
    pub fn refined_prices(&self, alloc: Global, missing: &[i64]) -> Result<List<i128>, Memory> {
        self.state.refined_prices(alloc, missing)
    }

    /// Returns the room for products with the inverse of a basis.
    ///
    /// # Errors
    ///
    /// `Memory` where memory runs out.
    pub fn product_room(&self, alloc: Global) -> Result<ProductWorkspace, Memory> {
        self.state.product_room(alloc)
    }

    /// Leaves the inverse of the basis times a side with a number for each row: a number for each place of
    /// the basis. Takes no memory.
    pub fn inverse_times(&self, side: &[f64], room: &mut ProductWorkspace, out: &mut [f64]) {
        self.state.inverse_times(side, room, out);
    }

    /// Leaves costs, one for each place of the basis, times the inverse of the basis: a number for each row.
    /// Takes no memory.
    pub fn times_inverse(&self, costs: &[f64], room: &mut ProductWorkspace, out: &mut [f64]) {
        self.state.times_inverse(costs, room, out);
    }

    /// Returns the reduced cost of a listed column after a run.
    pub fn reduced(&self, number: usize) -> Option<Q24> {
        self.state
            .reduced(self.rows.saturating_mul(2).saturating_add(number))
    }

    /// Returns what the basis costs, in units of 2^-32, less what the perturbations are worth.
    pub fn value(&self) -> i128 {
        let worth = i128::from(self.state.perturbation_worth().raw());
        let mut total = 0i128.saturating_sub(worth);
        for (value, place) in self.state.values().iter().zip(self.state.basis()) {
            total = total.saturating_add(product(value.raw(), self.state.cost(*place)));
        }
        total
    }

    /// Returns how many pivots all runs made.
    pub fn pivots(&self) -> u64 {
        self.state.pivots()
    }

    /// Returns how many entries all steps have touched.
    pub fn work(&self) -> u64 {
        self.state.work()
    }

    /// Becomes a copy of another program with as many rows. Takes memory only where the other has more
    /// columns or entries than this one ever had.
    ///
    /// # Errors
    ///
    /// `Memory` where memory runs out; rows are as many as before then.
    pub fn copy_from(&mut self, other: &FloatProgram) -> Result<(), Memory>
        requires { row_count self.old ≡ row_count other.now }
        ensures rows { row_count self.new ≡ row_count self.old }
        ensures count { IfOk result (λ _. listed_count self.new ≡ listed_count other.now) }
    {
        self.state.copy_from(&other.state)?;
        self.count = other.count;
        Ok(())
    }

    /// Becomes a copy of another program with as many rows whose last row was empty; here that row is
    /// this one, and the flagged listed columns have an entry 1 in it. A basis of the other with the new
    /// row's slack, or its column of entry -1 where the other one is dear, is the basis: its reduced costs
    /// stay. Takes memory as `copy_from` does.
    ///
    /// # Errors
    ///
    /// `Memory` where memory runs out; rows are as many as before then.
    pub fn copy_with_row(
        &mut self,
        other: &FloatProgram,
        row: LastRow,
        flags: &[bool],
    ) -> Result<Result<(), Grown>, Memory>
        requires { row_count self.old ≡ row_count other.now }
        ensures rows { row_count self.new ≡ row_count self.old }
        ensures count { IfOk result (λ _. listed_count self.new ≡ listed_count other.now) }
    {
        self.state.copy_with_row(&other.state, row, flags)?;
        self.count = other.count;
        Ok(Ok(()))
    }
}
