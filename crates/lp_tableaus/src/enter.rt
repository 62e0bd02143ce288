//! A column of negative reduced cost, made basic.

ghost use Rattle.std.specs.Prelude.{ℕ, ◌≡◌, ◌≤◌, ◌<◌, ◌+◌, pos, ◌≤ℤ◌, ◌<ℤ◌, IfOk, IfErr, IfSome, IfNone, length};
ghost use Rattle.law_bounds.specs.linear_programs.Program.{Program, IsSound, IsPricedOut};
ghost use Rattle.lp_fractions.specs.Row.{at};
ghost use Rattle.lp_tableaus.specs.Lines.{IsLine};
ghost use Rattle.lp_tableaus.specs.Sheet.{IsSheet, IsOnPath, HasRoom, AreCopied};
ghost use Rattle.lp_tableaus.specs.Cheaper.{IsCheaper};
ghost use Rattle.lp_tableaus.specs.Ends.{IsLpFault};
ghost use Rattle.lp_tableaus.specs.Faults.{fault_of};

use crate::choice::{Rule, choice};
use crate::columns::{Columns, ColumnsFault};
use crate::line::NumberRow;
use crate::marks::{Marks, is_among};
use crate::sheet::{Entries, Sheet};
use crate::simplex::LpFault;
use crate::small::{check_column, reduced_cost};
use crate::turn::turn;
use lp_fractions::Tally;

/// Returns the fault of columns as that of a program.
pub(crate) fn lp_fault(fault: ColumnsFault) -> LpFault
    ensures { result ≡ fault_of fault }
{
    match fault {
        ColumnsFault::Wide(fault) => LpFault::Wide(fault),
        ColumnsFault::Memory => LpFault::Memory,
    }
}

/// Makes a listed column of negative reduced cost basic.
///
/// # Errors
///
/// The fault of the program (`IsLpFault`): `Wide` for a number above 2^56 in size or a column that is too
/// large, which the tally counts, or `Memory`. Nothing is said of the sheet then.
pub(crate) fn enter<C: Columns>(
    columns: &C,
    sheet: &mut Sheet,
    column: usize,
    tally: &mut Tally,
) -> Result<(), LpFault>
    requires ready { C.Ready (C.state columns.now) }
    requires sound { IsSound (C.program (C.site columns.now)) }
    requires costs { (k : C.Key) → (C.program (C.site columns.now)).belongs k
        → pos 0 ≤ℤ ((C.program (C.site columns.now)).column k).cost }
    requires few { (C.program (C.site columns.now)).rows ≤ 1500 }
    requires sheet { IsSheet
        (C.program (C.site columns.now)).rows sheet.old.rows sheet.old.cost sheet.old.basis.items }
    requires room { HasRoom
        (C.program (C.site columns.now)).rows sheet.old.entries sheet.old.prices sheet.old.pivot }
    requires path { (n : ℕ) × IsOnPath (C.program (C.site columns.now)) (C.Lists (C.state columns.now))
        sheet.old.rows sheet.old.cost sheet.old.basis.items n }
    requires column { IsCheaper (C.program (C.site columns.now)) (C.Lists (C.state columns.now))
        (C.size (C.state columns.now)) sheet.old.cost column }
    ensures path { IfOk result
        (λ _. (n : ℕ) → IsOnPath (C.program (C.site columns.now)) (C.Lists (C.state columns.now))
        sheet.old.rows sheet.old.cost sheet.old.basis.items n → IsOnPath (C.program (C.site columns.now))
        (C.Lists (C.state columns.now)) sheet.new.rows sheet.new.cost sheet.new.basis.items (n + 1)) }
    ensures sheet { IfOk result
        (λ _. IsSheet (C.program (C.site columns.now)).rows sheet.new.rows sheet.new.cost
        sheet.new.basis.items) }
    ensures room { IfOk result (λ _. HasRoom (C.program (C.site columns.now)).rows sheet.new.entries
        sheet.new.prices sheet.new.pivot) }
    ensures fault { (n : ℕ) → IfErr result (λ f. IsLpFault (C.program (C.site columns.now))
        (C.Lists (C.state columns.now)) n tally.old tally.new f) }
    ensures counts { (tally.old.wide ≤ tally.new.wide) × (tally.new.spent ≡ tally.old.spent) }
{
    let _before = tally.wide();
    let places = columns.places(column);
    let cost = columns.cost(column);
    if let Err(fault) = check_column(places, cost, tally) {
        return Err(LpFault::Wide(fault));
    }
    let reduced = reduced_cost(sheet.cost.as_slice(), columns.rows(), places, cost);
    let is_wanted = is_among(columns.wanted(), column);
    if let Err(fault) = turn(sheet, column, is_wanted, places, reduced, tally) {
        return Err(LpFault::Wide(fault));
    }
    Ok(())
}

/// Returns a listed column of negative reduced cost at the prices of a cost row, or none where no
/// column of the program has. There the prices are copied. A wanted column is chosen by the rule.
///
/// # Errors
///
/// The fault of the program (`IsLpFault`): `Wide` for a number above 2^56 in size or a column that is too
/// large, which the tally counts, or `Memory`. Listed columns keep their numbers then too.
pub(crate) fn entering<C: Columns>(
    columns: &mut C,
    rows: &[NumberRow],
    basis: &[usize],
    marks: &Marks,
    rule: Rule,
    cost: &[i64],
    prices: &mut Entries,
    tally: &mut Tally,
) -> Result<Option<usize>, LpFault>
    requires ready { C.Ready (C.state columns.old) }
    requires few { (C.program (C.site columns.old)).rows ≤ 1500 }
    requires cost { IsLine ((C.program (C.site columns.old)).rows + 2) cost.now }
    requires kappa { pos 0 <ℤ at cost.now ((C.program (C.site columns.old)).rows + 1) }
    requires prices { length prices.old ≡ (C.program (C.site columns.old)).rows }
    ensures site { C.site columns.new ≡ C.site columns.old }
    ensures ready { C.Ready (C.state columns.new) }
    ensures kept { C.Kept (C.state columns.old) (C.state columns.new) }
    ensures found { IfOk result (λ answer. IfSome answer (λ j. IsCheaper (C.program (C.site columns.old))
        (C.Lists (C.state columns.new)) (C.size (C.state columns.new)) cost.now j)) }
    ensures none { IfOk result (λ answer. IfNone answer (IsPricedOut (C.program (C.site columns.old))
        (at cost.now) (at cost.now ((C.program (C.site columns.old)).rows + 1)))) }
    ensures copied { IfOk result (λ answer. IfNone answer (AreCopied (C.program (C.site columns.old)).rows
        prices.new cost.now)) }
    ensures length { length prices.new ≡ length prices.old }
    ensures fault { (n : ℕ) → IfErr result (λ f. IsLpFault (C.program (C.site columns.old))
        (C.Lists (C.state columns.new)) n tally.old tally.new f) }
    ensures counts { (tally.old.wide ≤ tally.new.wide) × (tally.new.spent ≡ tally.old.spent) }
{
    if let Some(column) = choice(columns, cost, rows, basis, marks, rule) {
        return Ok(Some(column));
    }
    prices.copy(cost);
    let kappa = i128::from(cost[cost.len() - 1]);
    match columns.price_out(prices.as_slice(), kappa, tally) {
        Ok(found) => Ok(found),
        Err(fault) => Err(lp_fault(fault)),
    }
}
