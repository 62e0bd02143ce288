//! The reduced cost of a column, and the first that is negative.

ghost use Rattle.std.specs.Prelude.{ℕ, ◌≡◌, ◌<◌, pos, ◌+ℤ◌, ◌-ℤ◌, ◌*ℤ◌, ◌≤ℤ◌, ◌<ℤ◌, Some, IfOk, IfSome, IfNone, length, slice_get};
ghost use Rattle.std.specs.Bool.{OnTrue, OnFalse};
ghost use Rattle.law_bounds.specs.linear_programs.Program.{reduced};
ghost use Rattle.law_bounds.specs.linear_programs.Sums.{dot};
ghost use Rattle.lp_fractions.specs.Row.{at};
ghost use Rattle.lp_fractions.specs.pivot_rows.Columns.{number_in};
ghost use Rattle.rows_tableaus.specs.Tables.{AreThree, column_of};

use crate::listed::Entries;
use lp_fractions::Place;
use model_rosters::Memory;

fn product(first: i128, second: i128) -> Option<i128>
    ensures { IfSome result (λ z. z ≡ first *ℤ second) }
{
    first.checked_mul(second)
}

fn sum(first: i128, second: i128) -> Option<i128>
    ensures { IfSome result (λ z. z ≡ first +ℤ second) }
{
    first.checked_add(second)
}

fn difference(first: i128, second: i128) -> Option<i128>
    ensures { IfSome result (λ z. z ≡ first -ℤ second) }
{
    first.checked_sub(second)
}

/// Returns the entry in a row.
pub(crate) fn entry(places: &[Place], row: usize) -> i128
    requires three { AreThree places.now }
    requires row { row < 3 }
    ensures { result ≡ number_in places.now row }
{
    i128::from(places[row].value)
}

/// Adds what the entry in a row is worth at the prices of the rows, if a word has room for it.
fn with_worth(before: i128, y: &[i128], places: &[Place], row: usize) -> Option<i128>
    requires three { AreThree places.now }
    requires length { length y.now ≡ 3 }
    requires row { row < 3 }
    ensures { IfSome result (λ z. z ≡ before +ℤ at y.now row *ℤ number_in places.now row) }
{
    sum(before, product(y[row], entry(places, row))?)
}

/// Returns what the entries are worth at the prices of the rows, if a word has room for it.
fn worth(y: &[i128], places: &[Place]) -> Option<i128>
    requires three { AreThree places.now }
    requires length { length y.now ≡ 3 }
    ensures { IfSome result (λ z. z ≡ dot 3 (at y.now) (number_in places.now)) }
{
    let first = with_worth(0, y, places, 0)?;
    let second = with_worth(first, y, places, 1)?;
    with_worth(second, y, places, 2)
}

/// Returns `kappa` times the reduced cost of a column, if a word has room for all that it comes from.
fn reduced_cost(column: &Entries, y: &[i128], kappa: i128) -> Option<i128>
    requires { length y.now ≡ 3 }
    ensures { IfSome result (λ z. z ≡ reduced 3 (at y.now) kappa (column_of (Some column.now))) }
{
    let worth = worth(y, column.places())?;
    difference(product(kappa, i128::from(column.cost()))?, worth)
}

/// Says whether a column has a negative reduced cost. The prices are too large for these rows where
/// a word has no room.
fn is_cheaper(column: &Entries, y: &[i128], kappa: i128) -> Result<bool, Memory>
    requires { length y.now ≡ 3 }
    ensures cheaper { IfOk result (λ answer. OnTrue answer
        (reduced 3 (at y.now) kappa (column_of (Some column.now)) <ℤ pos 0)) }
    ensures dearer { IfOk result (λ answer. OnFalse answer
        (pos 0 ≤ℤ reduced 3 (at y.now) kappa (column_of (Some column.now)))) }
{
    match reduced_cost(column, y, kappa) {
        Some(reduced) => Ok(reduced < 0),
        None => Err(Memory),
    }
}

/// Returns the first column of negative reduced cost.
pub(crate) fn find_cheaper(
    columns: &[Entries],
    y: &[i128],
    kappa: i128,
) -> Result<Option<usize>, Memory>
    requires { length y.now ≡ 3 }
    ensures some { IfOk result (λ found. IfSome found (λ j. (j < length columns.now)
        × (reduced 3 (at y.now) kappa (column_of (slice_get columns.now j)) <ℤ pos 0))) }
    ensures none { IfOk result (λ found. IfNone found ((k : ℕ) → k < length columns.now →
        pos 0 ≤ℤ reduced 3 (at y.now) kappa (column_of (slice_get columns.now k)))) }
{
    for place in 0..columns.len() {
        if is_cheaper(&columns[place], y, kappa)? {
            return Ok(Some(place));
        }
    }
    Ok(None)
}
