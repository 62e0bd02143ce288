//! Which wanted column enters.

ghost use Rattle.std.specs.Prelude.{ℕ, ◌≡◌, ◌≤◌, ◌<◌, ◌+◌, ◌^◌, pos, ◌≤ℤ◌, length, IfSome};
ghost use Rattle.law_bounds.specs.linear_programs.Program.{Program, reduced};
ghost use Rattle.lp_fractions.specs.Row.{at};
ghost use Rattle.lp_fractions.specs.pivot_rows.Rows.{AreNarrow};
ghost use Rattle.lp_tableaus.specs.Lines.{IsLine};
ghost use Rattle.lp_tableaus.specs.Cheaper.{IsCheaper};

use crate::columns::Columns;
use crate::line::NumberRow;
use crate::marks::Marks;
use crate::narrow::{Nominee, Nominees, narrowest_of};
use crate::small::{is_small, reduced_cost};

/// How the wanted column that enters is chosen. Paths of each rule are lawful, and where the numbers of one
/// become wide those of another may not.
#[derive(Clone, Copy, Drop)]
pub(crate) enum Rule {
    /// The one of the most negative reduced cost an entry.
    Steepest,
    /// Of so many of the most negative reduced cost an entry the one of the least pivot.
    Narrowest(usize),
}

/// A listed column, with its reduced cost and the number of its entries that are not 0.
#[derive(Clone, Copy, Drop)]
struct Candidate {
    column: usize,
    reduced: i128,
    length: usize,
}

impl Candidate {
    /// Says whether the candidate has at most as low a reduced cost an entry as another one.
    fn is_as_low(&self, other: &Candidate) -> bool {
        match (
            self.reduced.checked_mul(other.length as i128),
            other.reduced.checked_mul(self.length as i128),
        ) {
            (Some(one), Some(two)) => one <= two,
            _ => true,
        }
    }
}

/// Returns the reduced cost of a listed column, if it is negative and the column's entries and cost
/// are small.
fn cheaper<C: Columns>(columns: &C, prices: &[i64], column: usize) -> Option<i128>
    requires ready { C.Ready (C.state columns.now) }
    requires column { column < C.size (C.state columns.now) }
    requires keys { (j : ℕ) → j < C.size (C.state columns.now) → (k : C.Key)
        × C.Lists (C.state columns.now) j k
        × (C.program (C.site columns.now)).belongs k }
    requires few { (C.program (C.site columns.now)).rows ≤ 1500 }
    requires prices { IsLine ((C.program (C.site columns.now)).rows + 2) prices.now }
    requires kappa { pos 0 ≤ℤ at prices.now ((C.program (C.site columns.now)).rows + 1) }
    ensures { IfSome result (λ _. IsCheaper (C.program (C.site columns.now)) (C.Lists (C.state columns.now))
        (C.size (C.state columns.now)) prices.now column) }
{
    let places = columns.places(column);
    let cost = columns.cost(column);
    if !is_small(places, cost) {
        return None;
    }
    let reduced = reduced_cost(prices, columns.rows(), places, cost);
    if reduced < 0 { Some(reduced) } else { None }
}

/// Returns the column, if its reduced cost is negative and, divided by the number of its entries, below
/// that of the best one so far.
fn better<C: Columns>(
    columns: &C,
    prices: &[i64],
    best: Option<Candidate>,
    column: usize,
) -> Option<Candidate>
    requires ready { C.Ready (C.state columns.now) }
    requires column { column < C.size (C.state columns.now) }
    requires keys { (j : ℕ) → j < C.size (C.state columns.now) → (k : C.Key)
        × C.Lists (C.state columns.now) j k
        × (C.program (C.site columns.now)).belongs k }
    requires few { (C.program (C.site columns.now)).rows ≤ 1500 }
    requires prices { IsLine ((C.program (C.site columns.now)).rows + 2) prices.now }
    requires kappa { pos 0 ≤ℤ at prices.now ((C.program (C.site columns.now)).rows + 1) }
    requires best { IfSome best
        (λ b. IsCheaper (C.program (C.site columns.now)) (C.Lists (C.state columns.now))
        (C.size (C.state columns.now)) prices.now b.column) }
    ensures { IfSome result (λ b. IsCheaper (C.program (C.site columns.now)) (C.Lists (C.state columns.now))
        (C.size (C.state columns.now)) prices.now b.column) }
{
    let Some(reduced) = cheaper(columns, prices, column) else {
        return best;
    };
    let next = Candidate {
        column,
        reduced,
        length: columns.places(column).len(),
    };
    match best {
        Some(least) if least.is_as_low(&next) => Some(least),
        _ => Some(next),
    }
}

/// Returns the wanted column of the most negative reduced cost an entry: paths that divide by the number
/// of entries are shorter, and their numbers smaller.
fn steepest<C: Columns>(columns: &C, prices: &[i64]) -> Option<usize>
    requires ready { C.Ready (C.state columns.now) }
    requires few { (C.program (C.site columns.now)).rows ≤ 1500 }
    requires prices { IsLine ((C.program (C.site columns.now)).rows + 2) prices.now }
    requires kappa { pos 0 ≤ℤ at prices.now ((C.program (C.site columns.now)).rows + 1) }
    ensures { IfSome result
        (λ column. IsCheaper (C.program (C.site columns.now)) (C.Lists (C.state columns.now))
        (C.size (C.state columns.now)) prices.now column) }
{
    let _count = columns.count();
    let mut best = None;
    for column in columns.wanted() {
        best = better(columns, prices, best, *column as usize);
    }
    let least = best?;
    Some(least.column)
}

/// Returns the wanted column of the least pivot among so many of the most negative reduced cost an entry.
fn narrowest<C: Columns>(
    columns: &C,
    prices: &[i64],
    rows: &[NumberRow],
    basis: &[usize],
    marks: &Marks,
    most: usize,
) -> Option<usize>
    requires ready { C.Ready (C.state columns.now) }
    requires few { (C.program (C.site columns.now)).rows ≤ 1500 }
    requires prices { IsLine ((C.program (C.site columns.now)).rows + 2) prices.now }
    requires kappa { pos 0 ≤ℤ at prices.now ((C.program (C.site columns.now)).rows + 1) }
    ensures { IfSome result
        (λ column. IsCheaper (C.program (C.site columns.now)) (C.Lists (C.state columns.now))
        (C.size (C.state columns.now)) prices.now column) }
{
    let count = columns.count();
    let mut nominees = Nominees::new(most);
    for number in columns.wanted() {
        let column = *number as usize;
        if let Some(reduced) = cheaper(columns, prices, column) {
            let length = columns.places(column).len();
            nominees.note(Nominee {
                column,
                reduced,
                length,
            });
        }
    }
    let column = narrowest_of(columns, rows, basis, marks, &nominees)?;
    if column >= count {
        return None;
    }
    let _reduced = cheaper(columns, prices, column)?;
    Some(column)
}

/// Returns a wanted column of negative reduced cost, if there is one, by a rule.
pub(crate) fn choice<C: Columns>(
    columns: &C,
    prices: &[i64],
    rows: &[NumberRow],
    basis: &[usize],
    marks: &Marks,
    rule: Rule,
) -> Option<usize>
    requires ready { C.Ready (C.state columns.now) }
    requires few { (C.program (C.site columns.now)).rows ≤ 1500 }
    requires prices { IsLine ((C.program (C.site columns.now)).rows + 2) prices.now }
    requires kappa { pos 0 ≤ℤ at prices.now ((C.program (C.site columns.now)).rows + 1) }
    ensures { IfSome result
        (λ column. IsCheaper (C.program (C.site columns.now)) (C.Lists (C.state columns.now))
        (C.size (C.state columns.now)) prices.now column) }
{
    match rule {
        Rule::Steepest => steepest(columns, prices),
        Rule::Narrowest(most) => narrowest(columns, prices, rows, basis, marks, most),
    }
}
