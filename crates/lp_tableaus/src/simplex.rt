//! The simplex method: `solve`, and its answers.

ghost use Rattle.std.specs.Prelude.{ℕ, ◌≡◌, ◌≤◌, ◌<◌, pos, ◌≤ℤ◌, IfOk, IfErr, IsTrue, length};
ghost use Rattle.law_bounds.specs.linear_programs.Program.{IsSound};
ghost use Rattle.lp_fractions.specs.Row.{at};
ghost use Rattle.lp_tableaus.specs.Ends.{IsLpEnd, EndsLp};

use crate::choice::Rule;
use crate::columns::Columns;
use crate::finish::finish;
use crate::first::start;
use crate::run::run;
use lp_fractions::{Frac, Tally, TooWide};
use model_rosters::List;
use std::alloc::Global;

/// A basic column with its weight.
#[derive(Clone, Copy, Debug, PartialEq, Eq, Drop)]
pub struct Basic {
    /// The number of the column.
    pub col: usize,
    /// Its weight.
    pub x: Frac,
}

/// A basic solution of least cost, and prices of the same value.
#[derive(Drop)]
pub struct LpEnd {
    pub basic: List<Basic>,
    pub y: List<i128>,
    pub kappa: i128,
    pub value: Frac,
}

/// Why a program was given up.
#[derive(Clone, Copy, Debug, PartialEq, Eq, Drop)]
pub enum LpFault {
    /// A number left the range.
    Wide(TooWide),
    /// All pivots were made.
    Spent { pivots: u32 },
    /// Memory did not suffice.
    Memory,
    /// What it is done for is to stop.
    Stopped,
}

/// Solves the program of the columns by one rule.
fn attempt<C: Columns>(
    alloc: Global,
    columns: &mut C,
    right: &[i64],
    rule: Rule,
    pivots: u32,
    tally: &mut Tally,
) -> Result<LpEnd, LpFault>
    requires ready { C.Ready (C.state columns.old) }
    requires sound { IsSound (C.program (C.site columns.old)) }
    requires few { (C.program (C.site columns.old)).rows ≤ 1500 }
    requires units { (r : ℕ) → r < (C.program (C.site columns.old)).rows
        → C.Lists (C.state columns.old) r ((C.program (C.site columns.old)).unit r) }
    requires length { length right.now ≡ (C.program (C.site columns.old)).rows }
    requires right { (r : ℕ) → r < (C.program (C.site columns.old)).rows → at right.now r
        ≡ (C.program (C.site columns.old)).right r }
    requires costs { (k : C.Key) → (C.program (C.site columns.old)).belongs k
        → pos 0 ≤ℤ ((C.program (C.site columns.old)).column k).cost }
    ensures end { IfOk result (λ end. IsLpEnd (C.program (C.site columns.old))
        (C.Lists (C.state columns.new)) end.basic end.y end.kappa end.value) }
    ensures fault { IfErr result (λ fault. EndsLp (C.program (C.site columns.old))
        (C.Lists (C.state columns.new)) (C.calm (C.site columns.old)) pivots tally.old tally.new fault) }
    ensures site { C.site columns.new ≡ C.site columns.old }
    ensures ready { C.Ready (C.state columns.new) }
    ensures kept { C.Kept (C.state columns.old) (C.state columns.new) }
    ensures counts { (tally.old.wide ≤ tally.new.wide) × (tally.old.spent ≤ tally.new.spent) }
{
    let mut sheet = match start(alloc, columns, right, tally) {
        Ok(sheet) => sheet,
        Err(fault) => return Err(fault),
    };
    if let Err(fault) = run(columns, &mut sheet, rule, pivots, tally) {
        return Err(fault);
    }
    match finish(alloc, columns, sheet, tally) {
        Ok(end) => Ok(end),
        Err(fault) => Err(fault),
    }
}

/// Solves the program from the start by a second rule, and where that path is given up by a third. What
/// these refuse no tally counts.
fn attempt_again<C: Columns>(
    alloc: Global,
    columns: &mut C,
    right: &[i64],
    pivots: u32,
) -> Result<LpEnd, LpFault>
    requires ready { C.Ready (C.state columns.old) }
    requires sound { IsSound (C.program (C.site columns.old)) }
    requires few { (C.program (C.site columns.old)).rows ≤ 1500 }
    requires units { (r : ℕ) → r < (C.program (C.site columns.old)).rows
        → C.Lists (C.state columns.old) r ((C.program (C.site columns.old)).unit r) }
    requires length { length right.now ≡ (C.program (C.site columns.old)).rows }
    requires right { (r : ℕ) → r < (C.program (C.site columns.old)).rows → at right.now r
        ≡ (C.program (C.site columns.old)).right r }
    requires costs { (k : C.Key) → (C.program (C.site columns.old)).belongs k
        → pos 0 ≤ℤ ((C.program (C.site columns.old)).column k).cost }
    ensures end { IfOk result (λ end. IsLpEnd (C.program (C.site columns.old))
        (C.Lists (C.state columns.new)) end.basic end.y end.kappa end.value) }
    ensures stopped { IfErr result (λ fault. fault ≡ LpFault.Stopped
        → IsTrue (C.calm (C.site columns.old)) → ⊥) }
    ensures site { C.site columns.new ≡ C.site columns.old }
    ensures ready { C.Ready (C.state columns.new) }
    ensures kept { C.Kept (C.state columns.old) (C.state columns.new) }
{
    let mut tally = Tally::new();
    match attempt(
        alloc,
        columns,
        right,
        Rule::Narrowest(4),
        pivots,
        &mut tally,
    ) {
        Ok(end) => Ok(end),
        Err(LpFault::Memory) => Err(LpFault::Memory),
        Err(LpFault::Stopped) => Err(LpFault::Stopped),
        Err(_) => attempt(
            alloc,
            columns,
            right,
            Rule::Narrowest(16),
            pivots,
            &mut tally,
        ),
    }
}

/// Says whether a number was too wide.
fn is_wide(fault: LpFault) -> bool {
    matches!(fault, LpFault::Wide(_))
}

/// Solves the program of the columns. Where a number of a path is too wide, a path of another rule is
/// tried, and then one of a third.
///
/// # Errors
///
/// The fault of the program (`EndsLp`): `Wide` for a number above 2^56 in size on some path, or a column
/// that is too large, `Spent` where all pivots were made, each of which the tally counts, `Memory`, or
/// `Stopped` where the columns say so before a pivot. Listed columns keep their numbers then too.
pub fn solve<C: Columns>(
    alloc: Global,
    columns: &mut C,
    right: &[i64],
    pivots: u32,
    tally: &mut Tally,
) -> Result<LpEnd, LpFault>
    requires ready { C.Ready (C.state columns.old) }
    requires sound { IsSound (C.program (C.site columns.old)) }
    requires few { (C.program (C.site columns.old)).rows ≤ 1500 }
    requires units { (r : ℕ) → r < (C.program (C.site columns.old)).rows
        → C.Lists (C.state columns.old) r ((C.program (C.site columns.old)).unit r) }
    requires length { length right.now ≡ (C.program (C.site columns.old)).rows }
    requires right { (r : ℕ) → r < (C.program (C.site columns.old)).rows → at right.now r
        ≡ (C.program (C.site columns.old)).right r }
    requires costs { (k : C.Key) → (C.program (C.site columns.old)).belongs k
        → pos 0 ≤ℤ ((C.program (C.site columns.old)).column k).cost }
    ensures end { IfOk result (λ end. IsLpEnd (C.program (C.site columns.old))
        (C.Lists (C.state columns.new)) end.basic end.y end.kappa end.value) }
    ensures fault { IfErr result (λ fault. EndsLp (C.program (C.site columns.old))
        (C.Lists (C.state columns.new)) (C.calm (C.site columns.old)) pivots tally.old tally.new fault) }
    ensures site { C.site columns.new ≡ C.site columns.old }
    ensures ready { C.Ready (C.state columns.new) }
    ensures kept { C.Kept (C.state columns.old) (C.state columns.new) }
    ensures counts { (tally.old.wide ≤ tally.new.wide) × (tally.old.spent ≤ tally.new.spent) }
{
    let fault = match attempt(alloc, columns, right, Rule::Steepest, pivots, tally) {
        Ok(end) => return Ok(end),
        Err(fault) => fault,
    };
    if !is_wide(fault) {
        return Err(fault);
    }
    match attempt_again(alloc, columns, right, pivots) {
        Ok(end) => Ok(end),
        Err(LpFault::Memory) => Err(LpFault::Memory),
        Err(LpFault::Stopped) => Err(LpFault::Stopped),
        Err(_) => Err(fault),
    }
}
