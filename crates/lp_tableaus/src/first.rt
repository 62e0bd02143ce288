//! The first tableau.

ghost use Rattle.std.specs.Prelude.{ℕ, ◌≡◌, ◌≤◌, ◌<◌, ◌+◌, ◌^◌, pos, ◌≤ℤ◌, IfOk, IfErr, length, slice_index, unsigned_abs, ◌++◌, ◌∷◌, [], ℤ, List};
ghost use Rattle.law_bounds.specs.linear_programs.Program.{Program, IsSound, unit_vector};
ghost use Rattle.law_bounds.specs.linear_programs.Sums.{dot};
ghost use Rattle.lp_fractions.specs.Row.{at};
ghost use Rattle.lp_fractions.specs.pivot_rows.Rows.{AreNarrow};
ghost use Rattle.lp_tableaus.specs.Lines.{row_at, IsLine, AreLines};
ghost use Rattle.lp_tableaus.specs.Sheet.{IsSheet, IsOnPath, HasRoom};
ghost use Rattle.lp_tableaus.specs.Running.{IsRunning};
ghost use Rattle.lp_tableaus.specs.First.{IsUnitLine, AreUnitLines, IsFirstCost, IsRightFault};
ghost use Rattle.lp_tableaus.specs.Ends.{IsLpFault};

use crate::columns::{Columns, ColumnsFault};
use crate::enter::lp_fault;
use crate::line::NumberRow;
use crate::marks::Marks;
use crate::sheet::{Entries, Rows, Sheet};
use crate::simplex::LpFault;
use crate::small::{MOST_COST, fits_word, scaled_cost};
use lp_fractions::{MOST_NUMBER, PivotRow, Tally, fits};
use model_rosters::Memory;
use std::alloc::Global;

/// Returns row `row` of so many unit rows, with a right side behind it.
fn unit_line(alloc: Global, rows: usize, row: usize, right: i64) -> Result<NumberRow, Memory>
    requires few { rows ≤ 1500 }
    requires row { row < rows }
    ensures { IfOk result (λ line. IsUnitLine rows row right line) }
{
    let mut numbers = vec![in alloc; 0i64; rows + 1]?;
    numbers[row] = 1;
    numbers[rows] = right;
    Ok(NumberRow::from_vec(numbers))
}

/// Adds the unit rows with these right sides to no rows.
fn fill_rows(
    alloc: Global,
    rows: &mut Rows,
    right: &[i64],
    tally: &mut Tally,
) -> Result<(), ColumnsFault>
    requires few { length right.now ≤ 1500 }
    requires none { length rows.old ≡ 0 }
    ensures rows { IfOk result (λ _. AreUnitLines (length right.now) (length right.now) right.now rows.new) }
    ensures right { IfOk result (λ _. AreNarrow right.now) }
    ensures same { IfOk result (λ _. tally.new ≡ tally.old) }
    ensures fault { IfErr result (IsRightFault right.now tally.old tally.new) }
{
    for row in 0..right.len() {
        if let Err(fault) = fits_word(right[row], MOST_NUMBER, tally) {
            return Err(ColumnsFault::Wide(fault));
        }
        let Ok(line) = unit_line(alloc, right.len(), row, right[row]) else {
            return Err(ColumnsFault::Memory);
        };
        let Ok(()) = rows.push(line) else {
            return Err(ColumnsFault::Memory);
        };
    }
    Ok(())
}

/// Returns the numbers from 0 on below a bound.
fn numbers_below(alloc: Global, bound: usize) -> Result<Vec<usize>, Memory>
    ensures length { IfOk result (λ v. length v.items ≡ bound) }
    ensures value { IfOk result (λ v. (k : ℕ) → k < bound → slice_index v.items k ≡ k) }
{
    let mut numbers = Vec::new(alloc);
    for number in 0..bound {
        numbers.push(number)?;
    }
    Ok(numbers)
}

/// Returns the costs of the unit columns.
fn unit_costs<C: Columns>(
    alloc: Global,
    columns: &C,
    rows: usize,
    tally: &mut Tally,
) -> Result<Vec<i64>, LpFault>
    requires ready { C.Ready (C.state columns.now) }
    requires units { (r : ℕ) → r < rows
        → C.Lists (C.state columns.now) r ((C.program (C.site columns.now)).unit r) }
    requires costs { (r : ℕ) → r < rows → pos 0 ≤ℤ ((C.program (C.site columns.now)).column
        ((C.program (C.site columns.now)).unit r)).cost }
    ensures length { IfOk result (λ v. length v.items ≡ rows) }
    ensures costs { IfOk result
        (λ v. (r : ℕ) → r < rows → at v.items r ≡ ((C.program (C.site columns.now)).column
        ((C.program (C.site columns.now)).unit r)).cost) }
    ensures small { IfOk result (λ v. (r : ℕ) → r < rows → at v.items r ≤ℤ pos (2 ^ 39)) }
    ensures same { IfOk result (λ _. tally.new ≡ tally.old) }
    ensures fault { (n : ℕ) → IfErr result (λ f. IsLpFault (C.program (C.site columns.now))
        (C.Lists (C.state columns.now)) n tally.old tally.new f) }
    ensures counts { (tally.old.wide ≤ tally.new.wide) × (tally.new.spent ≡ tally.old.spent) }
{
    let _before = tally.wide();
    let _count = columns.count();
    let mut costs = Vec::new(alloc);
    for row in 0..rows {
        let cost = columns.cost(row);
        if let Err(fault) = fits_word(cost, MOST_COST, tally) {
            return Err(LpFault::Wide(fault));
        }
        let Ok(()) = costs.push(cost) else {
            return Err(LpFault::Memory);
        };
    }
    Ok(costs)
}

/// Returns the sum of the costs times the right sides.
fn value_of(costs: &[i64], right: &[i64]) -> i128
    requires few { length costs.now ≤ 1500 }
    requires length { length right.now ≡ length costs.now }
    requires low { (r : ℕ) → r < length costs.now → pos 0 ≤ℤ at costs.now r }
    requires high { (r : ℕ) → r < length costs.now → at costs.now r ≤ℤ pos (2 ^ 39) }
    requires narrow { AreNarrow right.now }
    requires feasible { (r : ℕ) → r < length costs.now → pos 0 ≤ℤ at right.now r }
    ensures { result ≡ dot (length costs.now) (at costs.now) (at right.now) }
{
    let mut value = 0;
    for row in 0..costs.len() {
        value += scaled_cost(right[row], costs[row]);
    }
    value
}

/// Returns the costs, and behind them a value and 1.
fn cost_line(mut costs: Vec<i64>, value: i64) -> Result<NumberRow, Memory>
    ensures { IfOk result (λ line. line ≡ costs.items ++ (value ∷ []) ++ (pos 1 ∷ [])) }
{
    costs.push(value)?;
    costs.push(1)?;
    Ok(NumberRow::from_vec(costs))
}

/// Returns the costs of the unit columns, and behind them the value at these prices and 1.
fn first_cost<C: Columns>(
    alloc: Global,
    columns: &C,
    right: &[i64],
    tally: &mut Tally,
) -> Result<NumberRow, LpFault>
    requires ready { C.Ready (C.state columns.now) }
    requires few { length right.now ≤ 1500 }
    requires units { (r : ℕ) → r < length right.now → C.Lists (C.state columns.now) r
        ((C.program (C.site columns.now)).unit r) }
    requires length { length right.now ≡ (C.program (C.site columns.now)).rows }
    requires right { (r : ℕ) → r < length right.now → at right.now r
        ≡ (C.program (C.site columns.now)).right r }
    requires feasible { (r : ℕ) → r < length right.now → pos 0 ≤ℤ at right.now r }
    requires narrow { AreNarrow right.now }
    requires costs { (r : ℕ) → r < length right.now → pos 0 ≤ℤ ((C.program (C.site columns.now)).column
        ((C.program (C.site columns.now)).unit r)).cost }
    ensures cost { IfOk result (λ line. IsFirstCost (C.program (C.site columns.now)) right.now line) }
    ensures fault { (n : ℕ) → IfErr result (λ f. IsLpFault (C.program (C.site columns.now))
        (C.Lists (C.state columns.now)) n tally.old tally.new f) }
    ensures counts { (tally.old.wide ≤ tally.new.wide) × (tally.new.spent ≡ tally.old.spent) }
{
    let _before = tally.wide();
    let costs = match unit_costs(alloc, columns, right.len(), tally) {
        Ok(costs) => costs,
        Err(fault) => return Err(fault),
    };
    let value = value_of(costs.as_slice(), right);
    if let Err(fault) = fits(value, i128::from(MOST_NUMBER), tally) {
        return Err(LpFault::Wide(fault));
    }
    match cost_line(costs, value as i64) {
        Ok(line) => Ok(line),
        Err(_) => Err(LpFault::Memory),
    }
}

/// Returns the lists of a tableau, with room for its turns.
fn with_room(
    alloc: Global,
    rows: Rows,
    cost: NumberRow,
    wanted: &[u32],
    count: usize,
) -> Result<Sheet, Memory>
    requires few { count ≤ 1500 }
    ensures rows { IfOk result (λ sheet. sheet.rows ≡ rows) }
    ensures cost { IfOk result (λ sheet. sheet.cost ≡ cost) }
    ensures basis { IfOk result (λ sheet. (k : ℕ) → k < count → slice_index sheet.basis.items k ≡ k) }
    ensures length { IfOk result (λ sheet. length sheet.basis.items ≡ count) }
    ensures room { IfOk result (λ sheet. HasRoom count sheet.entries sheet.prices sheet.pivot) }
{
    let basis = numbers_below(alloc, count)?;
    let wanted = Marks::below(alloc, wanted, count)?;
    let entries = vec![in alloc; 0i128; count]?;
    let prices = vec![in alloc; 0i128; count]?;
    let pivot = PivotRow::new(alloc, count + 2)?;
    Ok(Sheet {
        rows,
        cost,
        basis,
        wanted,
        entries: Entries { numbers: entries },
        prices: Entries { numbers: prices },
        pivot,
    })
}

/// Returns the lists of the first tableau.
///
/// # Errors
///
/// The fault of the program (`IsLpFault`): `Wide` for a number above 2^56 in size or a column that is too
/// large, which the tally counts, or `Memory`.
pub(crate) fn start<C: Columns>(
    alloc: Global,
    columns: &C,
    right: &[i64],
    tally: &mut Tally,
) -> Result<Sheet, LpFault>
    requires ready { C.Ready (C.state columns.now) }
    requires sound { IsSound (C.program (C.site columns.now)) }
    requires few { (C.program (C.site columns.now)).rows ≤ 1500 }
    requires units { (r : ℕ) → r < (C.program (C.site columns.now)).rows → C.Lists (C.state columns.now) r
        ((C.program (C.site columns.now)).unit r) }
    requires length { length right.now ≡ (C.program (C.site columns.now)).rows }
    requires right { (r : ℕ) → r < (C.program (C.site columns.now)).rows → at right.now r
        ≡ (C.program (C.site columns.now)).right r }
    requires costs { (k : C.Key) → (C.program (C.site columns.now)).belongs k
        → pos 0 ≤ℤ ((C.program (C.site columns.now)).column k).cost }
    ensures running { (n : ℕ) → IfOk result (λ sheet. IsRunning (C.program (C.site columns.now))
        (C.Lists (C.state columns.now)) sheet.rows sheet.cost sheet.basis.items sheet.entries sheet.prices
        sheet.pivot n n) }
    ensures fault { (n : ℕ) → IfErr result (λ f. IsLpFault (C.program (C.site columns.now))
        (C.Lists (C.state columns.now)) n tally.old tally.new f) }
    ensures counts { (tally.old.wide ≤ tally.new.wide) × (tally.new.spent ≡ tally.old.spent) }
{
    let _before = tally.wide();
    let mut rows = Rows {
        lines: Vec::new(alloc),
    };
    if let Err(fault) = fill_rows(alloc, &mut rows, right, tally) {
        return Err(lp_fault(fault));
    }
    let cost = match first_cost(alloc, columns, right, tally) {
        Ok(cost) => cost,
        Err(fault) => return Err(fault),
    };
    match with_room(alloc, rows, cost, columns.wanted(), right.len()) {
        Ok(sheet) => Ok(sheet),
        Err(_) => Err(LpFault::Memory),
    }
}
