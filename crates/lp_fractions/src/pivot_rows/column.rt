//! Columns by their entries, and an entry in a row.

ghost use Rattle.std.specs.Prelude.{ℕ, ◌≡◌, ◌≤◌, ◌<◌, ◌^◌, ◌*ℤ◌, length, unsigned_abs};
ghost use Rattle.law_bounds.specs.linear_programs.Sums.{dot};
ghost use Rattle.lp_fractions.specs.Row.{at};
ghost use Rattle.lp_fractions.specs.pivot_rows.Columns.{AreWithin, AreRising, AreUnits, number_in};
ghost use Rattle.lp_fractions.specs.pivot_rows.Rows.{AreNarrow};

/// An entry of a column.
#[derive(Clone, Copy, Debug, PartialEq, Eq, Drop)]
pub struct Place {
    /// The row, from 0.
    pub row: u32,
    /// The entry there.
    pub value: i64,
}

// The product of a place's entry and the row's number there.
fn product_at(row: &[i64], place: Place) -> i64
    requires narrow { AreNarrow row.now }
    requires within { place.row < length row.now }
    requires unit { unsigned_abs place.value ≤ 1 }
    ensures value { result ≡ at row.now place.row *ℤ place.value }
    ensures size { unsigned_abs result ≤ 2 ^ 56 }
{
    row[place.row as usize] * place.value
}

/// Returns the entry of a column in a row of a tableau: the sum of the products of their numbers.
///
/// No number of the row is above 2^56 in size, and the column's entries are -1, 0 or 1, each in a
/// row that the row has a number for.
pub fn entry_in(row: &[i64], column: &[Place]) -> i128
    requires narrow { AreNarrow row.now }
    requires few { length row.now ≤ 4096 }
    requires within { AreWithin (length row.now) column.now }
    requires rising { AreRising column.now }
    requires units { AreUnits column.now }
    ensures value { (n : ℕ) → n ≤ length row.now → AreWithin n column.now →
        result ≡ dot n (at row.now) (number_in column.now) }
    ensures size { unsigned_abs result ≤ 2 ^ 68 }
{
    let mut sum = 0;
    for place in column {
        sum += i128::from(product_at(row, *place));
    }
    sum
}
