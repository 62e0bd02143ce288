//! One turn of the simplex method.

ghost use Rattle.std.specs.Prelude.{ℕ, ◌≡◌, ◌≤◌, ◌<◌, ◌+◌, ◌^◌, pos, neg_ℤ, ◌≤ℤ◌, ◌<ℤ◌, unsigned_abs, length, slice_set, List, ℤ, IfOk, IfErr, MatchResult};
ghost use Rattle.lp_fractions.specs.Row.{at};
ghost use Rattle.lp_fractions.specs.Range.{refused};
ghost use Rattle.lp_fractions.specs.pivot_rows.Rows.{AreNarrow};
ghost use Rattle.lp_fractions.specs.pivot_rows.Columns.{AreWithin, AreRising, AreUnits, number_in};
ghost use Rattle.law_bounds.specs.linear_programs.Sums.{dot};
ghost use Rattle.lp_tableaus.specs.Lines.{row_at, IsLine, AreLines, AreEntries, AreStepped, IsLeaving, HasWideRow, padded, IsTurn, IsWideTurn};
ghost use Rattle.lp_tableaus.specs.Sheet.{IsSheet};

use crate::line::NumberRow;
use crate::ratio::leaving;
use crate::sheet::{Entries, Rows, Sheet};
use lp_fractions::{PivotRow, Place, Tally, TooWide, entry_in};

/// Writes the entry of a column in each row.
fn write_entries(rows: &[NumberRow], column: &[Place], entries: &mut [i128])
    requires lines { AreLines (length rows.now) rows.now }
    requires few { length rows.now ≤ 1500 }
    requires length { length entries.old ≡ length rows.now }
    requires within { AreWithin (length rows.now) column.now }
    requires rising { AreRising column.now }
    requires units { AreUnits column.now }
    ensures { AreEntries (length rows.now) rows.now column.now entries.new (length rows.now) }
{
    for row in 0..rows.len() {
        entries[row] = entry_in(rows[row].as_slice(), column);
    }
}

/// Takes a step of elimination by the pivot's row in each other row.
fn step_rows(
    rows: &mut [NumberRow],
    leaving: usize,
    entries: &[i128],
    pivot: &PivotRow,
    tally: &mut Tally,
) -> Result<(), TooWide>
    requires leaving { leaving < length rows.old }
    requires lines { AreLines (length rows.old) rows.old }
    requires entries { length entries.now ≡ length rows.old }
    requires sizes { (r : ℕ) → r < length rows.old → unsigned_abs (at entries.now r) ≤ 2 ^ 68 }
    requires positive { pos 0 <ℤ at entries.now leaving }
    requires pivot { pivot.now ≡ padded (row_at rows.old leaving) }
    ensures stepped { IfOk result (λ _. AreStepped rows.old entries.now leaving rows.new (length rows.old)) }
    ensures lines { IfOk result (λ _. AreLines (length rows.old) rows.new) }
    ensures wide { IfErr result (λ _. HasWideRow (length rows.old) rows.old entries.now leaving) }
    ensures counted { MatchResult result (λ _. tally.new ≡ tally.old) (λ _. tally.new ≡ refused tally.old) }
{
    let factor = entries[leaving];
    for row in 0..rows.len() {
        if row != leaving {
            rows[row].step(factor, pivot, entries[row], tally)?;
        }
    }
    Ok(())
}

impl Entries {
    /// Holds the entry of a column in each row.
    fn write(&mut self, rows: &[NumberRow], column: &[Place])
        requires lines { AreLines (length rows.now) rows.now }
        requires few { length rows.now ≤ 1500 }
        requires length { length self.old ≡ length rows.now }
        requires within { AreWithin (length rows.now) column.now }
        requires rising { AreRising column.now }
        requires units { AreUnits column.now }
        ensures entries { AreEntries (length rows.now) rows.now column.now self.new (length rows.now) }
        ensures length { length self.new ≡ length rows.now }
    {
        write_entries(rows, column, &mut self.numbers);
    }
}

impl Rows {
    /// Takes a step of elimination by the pivot's row in each other row.
    fn step(
        &mut self,
        leaving: usize,
        entries: &[i128],
        pivot: &PivotRow,
        tally: &mut Tally,
    ) -> Result<(), TooWide>
        requires leaving { leaving < length self.old }
        requires lines { AreLines (length self.old) self.old }
        requires entries { length entries.now ≡ length self.old }
        requires sizes { (r : ℕ) → r < length self.old → unsigned_abs (at entries.now r) ≤ 2 ^ 68 }
        requires positive { pos 0 <ℤ at entries.now leaving }
        requires pivot { pivot.now ≡ padded (row_at self.old leaving) }
        ensures stepped { IfOk result
            (λ _. AreStepped self.old entries.now leaving self.new (length self.old)) }
        ensures lines { IfOk result (λ _. AreLines (length self.old) self.new) }
        ensures wide { IfErr result (λ _. HasWideRow (length self.old) self.old entries.now leaving) }
        ensures counted { MatchResult result (λ _. tally.new ≡ tally.old)
            (λ _. tally.new ≡ refused tally.old) }
    {
        step_rows(&mut self.lines, leaving, entries, pivot, tally)
    }
}

/// Makes a column with a negative reduced cost basic in the row that leaves, and notes whether it is
/// wanted.
///
/// # Errors
///
/// A new number that is above 2^56 in size is told (`IsWideTurn`), and the tally counts a refusal; some rows
/// are stepped then and others are not.
pub(crate) fn turn(
    sheet: &mut Sheet,
    column: usize,
    is_wanted: bool,
    places: &[Place],
    reduced: i128,
    tally: &mut Tally,
) -> Result<(), TooWide>
    requires sheet { IsSheet (length sheet.old.rows) sheet.old.rows sheet.old.cost sheet.old.basis.items }
    requires few { length sheet.old.rows ≤ 1500 }
    requires entries { length sheet.old.entries ≡ length sheet.old.rows }
    requires pivot { length sheet.old.pivot ≡ length sheet.old.rows + 2 }
    requires within { AreWithin (length sheet.old.rows) places.now }
    requires rising { AreRising places.now }
    requires units { AreUnits places.now }
    requires reduced { unsigned_abs reduced ≤ 2 ^ 68 }
    requires some { (r : ℕ) × (r < length sheet.old.rows)
        × (pos 0 <ℤ dot (length sheet.old.rows) (at (row_at sheet.old.rows r)) (number_in places.now)) }
    ensures turned { IfOk result (λ _. (t : ℕ)
        × AreEntries (length sheet.old.rows) sheet.old.rows places.now sheet.new.entries
        (length sheet.old.rows)
        × IsTurn (length sheet.old.rows) sheet.old.rows sheet.old.cost sheet.new.entries reduced t
        sheet.new.rows sheet.new.cost
        × (sheet.new.basis.items ≡ slice_set sheet.old.basis.items t column)) }
    ensures sheet { IfOk result
        (λ _. IsSheet (length sheet.old.rows) sheet.new.rows sheet.new.cost sheet.new.basis.items) }
    ensures entries { length sheet.new.entries ≡ length sheet.old.entries }
    ensures prices { sheet.new.prices ≡ sheet.old.prices }
    ensures pivot { length sheet.new.pivot ≡ length sheet.old.pivot }
    ensures wide { IfErr result (λ _. (t : ℕ) × (entries : List ℤ)
        × AreEntries (length sheet.old.rows) sheet.old.rows places.now entries (length sheet.old.rows)
        × IsWideTurn (length sheet.old.rows) sheet.old.rows sheet.old.cost entries reduced t) }
    ensures counted { MatchResult result (λ _. tally.new ≡ tally.old) (λ _. tally.new ≡ refused tally.old) }
{
    sheet.entries.write(sheet.rows.as_slice(), places);
    let row = leaving(
        sheet.rows.as_slice(),
        sheet.entries.as_slice(),
        &sheet.wanted,
    );
    sheet.pivot.set(sheet.rows.as_slice()[row].as_slice());
    let factor = sheet.entries.as_slice()[row];
    sheet
        .rows
        .step(row, sheet.entries.as_slice(), &sheet.pivot, tally)?;
    sheet.cost.step(factor, &sheet.pivot, -reduced, tally)?;
    sheet.basis[row] = column;
    sheet.wanted.set(row, is_wanted);
    Ok(())
}
