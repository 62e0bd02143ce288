//! Turns, one after another.

ghost use Rattle.std.specs.Prelude.{ℕ, ◌≡◌, ◌≤◌, ◌<◌, ◌+◌, pos, ◌≤ℤ◌, IfOk, IfErr, IsTrue, false};
ghost use Rattle.law_bounds.specs.linear_programs.Program.{Program, IsSound};
ghost use Rattle.lp_tableaus.specs.Running.{IsRunning, IsPriced};
ghost use Rattle.lp_tableaus.specs.Ends.{IsLpFault, EndsLp};

use crate::choice::Rule;
use crate::columns::Columns;
use crate::enter::{enter, entering};
use crate::sheet::Sheet;
use crate::simplex::LpFault;
use lp_fractions::{Budget, Tally};

/// Makes one turn of a path. Says whether one was made: none is where no column has a negative
/// reduced cost.
fn next<C: Columns>(
    columns: &mut C,
    sheet: &mut Sheet,
    rule: Rule,
    budget: &mut Budget,
    pivots: u32,
    tally: &mut Tally,
) -> Result<bool, LpFault>
    requires ready { C.Ready (C.state columns.old) }
    requires sound { IsSound (C.program (C.site columns.old)) }
    requires costs { (k : C.Key) → (C.program (C.site columns.old)).belongs k
        → pos 0 ≤ℤ ((C.program (C.site columns.old)).column k).cost }
    requires few { (C.program (C.site columns.old)).rows ≤ 1500 }
    requires running { IsRunning (C.program (C.site columns.old))
        (C.Lists (C.state columns.old)) sheet.old.rows
        sheet.old.cost sheet.old.basis.items sheet.old.entries sheet.old.prices sheet.old.pivot pivots
        budget.old }
    ensures running { IfOk result (λ more. IsTrue more → IsRunning (C.program (C.site columns.old))
        (C.Lists (C.state columns.new)) sheet.new.rows sheet.new.cost sheet.new.basis.items sheet.new.entries
        sheet.new.prices sheet.new.pivot pivots budget.new) }
    ensures less { IfOk result (λ more. IsTrue more → budget.new < budget.old) }
    ensures priced { IfOk result (λ more. more ≡ false → IsPriced (C.program (C.site columns.old))
        (C.Lists (C.state columns.new)) sheet.new.rows sheet.new.cost sheet.new.basis.items
        sheet.new.prices) }
    ensures site { C.site columns.new ≡ C.site columns.old }
    ensures ready { C.Ready (C.state columns.new) }
    ensures kept { C.Kept (C.state columns.old) (C.state columns.new) }
    ensures fault { IfErr result
        (λ f. IsLpFault (C.program (C.site columns.old)) (C.Lists (C.state columns.new))
        pivots tally.old tally.new f) }
    ensures counts { (tally.old.wide ≤ tally.new.wide) × (tally.old.spent ≤ tally.new.spent) }
{
    let _before = tally.spent();
    let column = match entering(
        columns,
        sheet.rows.as_slice(),
        sheet.basis.as_slice(),
        &sheet.wanted,
        rule,
        sheet.cost.as_slice(),
        &mut sheet.prices,
        tally,
    ) {
        Ok(Some(column)) => column,
        Ok(None) => return Ok(false),
        Err(fault) => return Err(fault),
    };
    if !budget.take(tally) {
        return Err(LpFault::Spent { pivots });
    }
    match enter(columns, sheet, column, tally) {
        Ok(()) => Ok(true),
        Err(fault) => Err(fault),
    }
}

/// Makes turns until no column has a negative reduced cost, at most so many. It asks before each whether it
/// is to stop.
///
/// # Errors
///
/// The fault of the program (`EndsLp`): `Wide` for a number above 2^56 in size or a column that is too
/// large, `Spent` where so many turns were made and a column has a negative reduced cost, each of which the
/// tally counts, `Memory`, or `Stopped`. Listed columns keep their numbers then too, and nothing is said of
/// the sheet.
pub(crate) fn run<C: Columns>(
    columns: &mut C,
    sheet: &mut Sheet,
    rule: Rule,
    pivots: u32,
    tally: &mut Tally,
) -> Result<(), LpFault>
    requires ready { C.Ready (C.state columns.old) }
    requires sound { IsSound (C.program (C.site columns.old)) }
    requires costs { (k : C.Key) → (C.program (C.site columns.old)).belongs k
        → pos 0 ≤ℤ ((C.program (C.site columns.old)).column k).cost }
    requires few { (C.program (C.site columns.old)).rows ≤ 1500 }
    requires running { IsRunning (C.program (C.site columns.old))
        (C.Lists (C.state columns.old)) sheet.old.rows
        sheet.old.cost sheet.old.basis.items sheet.old.entries sheet.old.prices sheet.old.pivot pivots
        pivots }
    ensures priced { IfOk result
        (λ _. IsPriced (C.program (C.site columns.old)) (C.Lists (C.state columns.new))
        sheet.new.rows sheet.new.cost sheet.new.basis.items sheet.new.prices) }
    ensures site { C.site columns.new ≡ C.site columns.old }
    ensures ready { C.Ready (C.state columns.new) }
    ensures kept { C.Kept (C.state columns.old) (C.state columns.new) }
    ensures fault { IfErr result
        (λ f. EndsLp (C.program (C.site columns.old)) (C.Lists (C.state columns.new))
        (C.calm (C.site columns.old)) pivots tally.old tally.new f) }
    ensures counts { (tally.old.wide ≤ tally.new.wide) × (tally.old.spent ≤ tally.new.spent) }
{
    let mut budget = Budget::new(pivots);
    'turns: loop {
        if columns.is_over() {
            return Err(LpFault::Stopped);
        }
        match next(columns, sheet, rule, &mut budget, pivots, tally) {
            Ok(true) => {}
            Ok(false) => return Ok(()),
            Err(fault) => return Err(fault),
        }
    }
}
