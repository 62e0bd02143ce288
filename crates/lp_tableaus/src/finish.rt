//! The end of a path.

ghost use Rattle.std.specs.Prelude.{ℕ, ◌≡◌, ◌≤◌, ◌<◌, ◌+◌, ◌^◌, pos, ◌*ℤ◌, ◌≤ℤ◌, ◌<ℤ◌, IfOk, IfErr, length, slice_index, slice_index_or, unsigned_abs};
ghost use Rattle.law_bounds.specs.linear_programs.Sums.{dot};
ghost use Rattle.law_bounds.specs.linear_programs.Program.{Program, IsSound};
ghost use Rattle.lp_fractions.specs.Row.{at};
ghost use Rattle.lp_tableaus.specs.Lines.{row_at, IsLine, AreLines};
ghost use Rattle.lp_tableaus.specs.Running.{IsPriced};
ghost use Rattle.lp_tableaus.specs.Finish.{IsShare, AreShares};
ghost use Rattle.lp_tableaus.specs.Ends.{IsLpEnd, IsLpFault};

use crate::columns::Columns;
use crate::line::NumberRow;
use crate::sheet::{Entries, Sheet};
use crate::simplex::{Basic, LpEnd, LpFault};
use crate::small::check_entries;
use lp_fractions::{Frac, Tally, entry_in};
use model_rosters::List;
use std::alloc::Global;

/// Returns a basic column with its weight: the right side of its row divided by its entry there.
fn basic_of<C: Columns>(
    columns: &C,
    row: &[i64],
    right: usize,
    column: usize,
    tally: &mut Tally,
) -> Result<Basic, LpFault>
    requires ready { C.Ready (C.state columns.now) }
    requires few { right ≤ 1500 }
    requires rows { right ≡ (C.program (C.site columns.now)).rows }
    requires row { IsLine (right + 1) row.now }
    requires column { (k : C.Key) × C.Lists (C.state columns.now) column k × (pos 0 <ℤ dot right (at row.now)
        ((C.program (C.site columns.now)).column k).entry) }
    ensures share { IfOk result (λ b. (k : C.Key) → C.Lists (C.state columns.now) column k →
        IsShare right row.now ((C.program (C.site columns.now)).column k).entry column b) }
    ensures same { IfOk result (λ _. tally.new ≡ tally.old) }
    ensures fault { (n : ℕ) → IfErr result (λ f. IsLpFault (C.program (C.site columns.now))
        (C.Lists (C.state columns.now)) n tally.old tally.new f) }
    ensures counts { (tally.old.wide ≤ tally.new.wide) × (tally.new.spent ≡ tally.old.spent) }
{
    let _before = tally.wide();
    let _count = columns.count();
    let places = columns.places(column);
    if let Err(fault) = check_entries(places, tally) {
        return Err(LpFault::Wide(fault));
    }
    let entry = entry_in(row, places);
    Ok(Basic {
        col: column,
        x: Frac::new(i128::from(row[right]), entry),
    })
}

/// Returns the basic columns with their weights, that of the last row first.
fn basics<C: Columns>(
    alloc: Global,
    columns: &C,
    rows: &[NumberRow],
    basis: &[usize],
    tally: &mut Tally,
) -> Result<List<Basic>, LpFault>
    requires ready { C.Ready (C.state columns.now) }
    requires few { length rows.now ≤ 1500 }
    requires rows { length rows.now ≡ (C.program (C.site columns.now)).rows }
    requires lines { AreLines (length rows.now) rows.now }
    requires basis { length basis.now ≡ length rows.now }
    requires columns { (r : ℕ) → r < length rows.now → (k : C.Key) × C.Lists (C.state columns.now)
        (slice_index basis.now r) k × (pos 0 <ℤ dot (length rows.now) (at (row_at rows.now r))
        ((C.program (C.site columns.now)).column k).entry) }
    ensures shares { IfOk result (λ basic. (keys : ℕ → C.Key) → ((r : ℕ) → r < length rows.now →
        C.Lists (C.state columns.now) (slice_index basis.now r) (keys r))
        → AreShares (length rows.now) rows.now
        (λ r. ((C.program (C.site columns.now)).column (keys r)).entry) basis.now basic (length rows.now)) }
    ensures fault { (n : ℕ) → IfErr result (λ f. IsLpFault (C.program (C.site columns.now))
        (C.Lists (C.state columns.now)) n tally.old tally.new f) }
    ensures counts { (tally.old.wide ≤ tally.new.wide) × (tally.new.spent ≡ tally.old.spent) }
{
    let mut basic = List::new(alloc);
    let mut row = rows.len();
    'rows: while row > 0 {
        row -= 1;
        let share = match basic_of(columns, rows[row].as_slice(), rows.len(), basis[row], tally) {
            Ok(share) => share,
            Err(fault) => return Err(fault),
        };
        let Ok(()) = basic.push(share) else {
            return Err(LpFault::Memory);
        };
    }
    Ok(basic)
}

/// Returns the end of a path that leaves no column a negative reduced cost.
///
/// # Errors
///
/// The fault of the program (`IsLpFault`): `Wide` for a number above 2^56 in size or a column that is too
/// large, which the tally counts, or `Memory`.
pub(crate) fn finish<C: Columns>(
    alloc: Global,
    columns: &C,
    sheet: Sheet,
    tally: &mut Tally,
) -> Result<LpEnd, LpFault>
    requires ready { C.Ready (C.state columns.now) }
    requires sound { IsSound (C.program (C.site columns.now)) }
    requires few { (C.program (C.site columns.now)).rows ≤ 1500 }
    requires priced { IsPriced (C.program (C.site columns.now))
        (C.Lists (C.state columns.now)) sheet.rows sheet.cost
        sheet.basis.items sheet.prices }
    ensures end { IfOk result (λ end. IsLpEnd (C.program (C.site columns.now)) (C.Lists (C.state columns.now))
        end.basic end.y end.kappa end.value) }
    ensures fault { (n : ℕ) → IfErr result (λ f. IsLpFault (C.program (C.site columns.now))
        (C.Lists (C.state columns.now)) n tally.old tally.new f) }
    ensures counts { (tally.old.wide ≤ tally.new.wide) × (tally.new.spent ≡ tally.old.spent) }
{
    let count = sheet.basis.len();
    let rows = sheet.rows.as_slice();
    let basic = match basics(alloc, columns, rows, sheet.basis.as_slice(), tally) {
        Ok(basic) => basic,
        Err(fault) => return Err(fault),
    };
    let line = sheet.cost.as_slice();
    let kappa = i128::from(line[count + 1]);
    let value = Frac::new(i128::from(line[count]), kappa);
    Ok(LpEnd {
        basic,
        y: prices_of(sheet),
        kappa,
        value,
    })
}

/// Returns the prices of a tableau.
fn prices_of(sheet: Sheet) -> List<i128>
    ensures { result ≡ sheet.prices }
{
    let Sheet { prices, .. } = sheet;
    let Entries { numbers } = prices;
    List::from_vec(numbers)
}
