//! Which row leaves.

ghost use Rattle.std.specs.Prelude.{ℕ, ◌≡◌, ◌≤◌, ◌<◌, ◌+◌, ◌^◌, pos, ◌*ℤ◌, ◌≤ℤ◌, ◌<ℤ◌, unsigned_abs, length, MatchOption};
ghost use Rattle.std.specs.Bool.{OnTrue, OnFalse};
ghost use Rattle.lp_fractions.specs.Row.{at};
ghost use Rattle.lp_fractions.specs.pivot_rows.Rows.{AreNarrow};
ghost use Rattle.lp_tableaus.specs.Lines.{row_at, AreLines, IsLeaving};

use crate::line::NumberRow;
use crate::marks::Marks;

/// Returns a number of a row times an entry.
fn scaled(number: i64, entry: i128) -> i128
    requires number { unsigned_abs number ≤ 2 ^ 56 }
    requires entry { unsigned_abs entry ≤ 2 ^ 68 }
    ensures { result ≡ number *ℤ entry }
{
    i128::from(number) * entry
}

/// Says whether the first row leaves rather than the second: its right side divided by its entry is
/// the lower one.
fn is_lower(first: &[i64], entry: i128, second: &[i64], other: i128, right: usize) -> bool
    requires first { AreNarrow first.now }
    requires second { AreNarrow second.now }
    requires entry { unsigned_abs entry ≤ 2 ^ 68 }
    requires other { unsigned_abs other ≤ 2 ^ 68 }
    requires one { right < length first.now }
    requires two { right < length second.now }
    ensures lower { OnTrue result ((at first.now right *ℤ other) ≤ℤ (at second.now right *ℤ entry)) }
    ensures higher { OnFalse result ((at second.now right *ℤ entry) ≤ℤ (at first.now right *ℤ other)) }
{
    let (low, high) = (scaled(first[right], other), scaled(second[right], entry));
    low < high
}

/// Says whether the first row leaves rather than the second: its right side divided by its entry is
/// the lower one, or as low where the first is the better one to leave.
fn is_before(
    first: &[i64],
    entry: i128,
    second: &[i64],
    other: i128,
    right: usize,
    is_better: bool,
) -> bool
    requires first { AreNarrow first.now }
    requires second { AreNarrow second.now }
    requires entry { unsigned_abs entry ≤ 2 ^ 68 }
    requires other { unsigned_abs other ≤ 2 ^ 68 }
    requires one { right < length first.now }
    requires two { right < length second.now }
    ensures lower { OnTrue result ((at first.now right *ℤ other) ≤ℤ (at second.now right *ℤ entry)) }
    ensures higher { OnFalse result ((at second.now right *ℤ entry) ≤ℤ (at first.now right *ℤ other)) }
{
    if is_better {
        !is_lower(second, other, first, entry, right)
    } else {
        is_lower(first, entry, second, other, right)
    }
}

/// Says whether a row leaves rather than another one where both may: one whose basic column is not
/// wanted before one whose is, and then the one with the greater entry.
fn is_better(wanted: &Marks, entries: &[i128], row: usize, other: usize) -> bool
    requires row { row < length entries.now }
    requires other { other < length entries.now }
{
    let stays = wanted.holds(row);
    let other_stays = wanted.holds(other);
    if stays == other_stays {
        entries[row] > entries[other]
    } else {
        other_stays
    }
}

/// Returns which of the first rows up to `row` leaves, given the one of those before it.
fn leaving_of(
    rows: &[NumberRow],
    entries: &[i128],
    wanted: &Marks,
    best: Option<usize>,
    row: usize,
) -> Option<usize>
    requires lines { AreLines (length rows.now) rows.now }
    requires row { row < length rows.now }
    requires entries { length entries.now ≡ length rows.now }
    requires sizes { (r : ℕ) → r < length rows.now → unsigned_abs (at entries.now r) ≤ 2 ^ 68 }
    requires best { MatchOption best ((r : ℕ) → r < row → at entries.now r ≤ℤ pos 0)
        (λ t. IsLeaving (length rows.now) rows.now entries.now row t) }
    ensures { MatchOption result ((r : ℕ) → r < row + 1 → at entries.now r ≤ℤ pos 0)
        (λ t. IsLeaving (length rows.now) rows.now entries.now (row + 1) t) }
{
    if entries[row] <= 0 {
        return best;
    }
    let Some(least) = best else {
        return Some(row);
    };
    let lower = is_before(
        rows[row].as_slice(),
        entries[row],
        rows[least].as_slice(),
        entries[least],
        rows.len(),
        is_better(wanted, entries, row, least),
    );
    if lower { Some(row) } else { Some(least) }
}

/// Returns the row that leaves the basis: its right side divided by its entry is the least one of the
/// rows with an entry above 0. Of several such rows it is one whose basic column is not wanted, if any,
/// then the one with the greatest entry, then the first.
pub(crate) fn leaving(rows: &[NumberRow], entries: &[i128], wanted: &Marks) -> usize
    requires lines { AreLines (length rows.now) rows.now }
    requires entries { length entries.now ≡ length rows.now }
    requires sizes { (r : ℕ) → r < length rows.now → unsigned_abs (at entries.now r) ≤ 2 ^ 68 }
    requires some { (r : ℕ) × (r < length rows.now) × (pos 0 <ℤ at entries.now r) }
    ensures { IsLeaving (length rows.now) rows.now entries.now (length rows.now) result }
{
    let mut best = None;
    for row in 0..rows.len() {
        best = leaving_of(rows, entries, wanted, best, row);
    }
    match best {
        Some(row) => row,
        None => unreachable!(),
    }
}
