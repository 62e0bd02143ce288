//! Which columns are small enough.

ghost use Rattle.std.specs.Prelude.{ℕ, ◌≡◌, ◌≤◌, ◌<◌, ◌+◌, ◌^◌, pos, ◌*ℤ◌, ◌-ℤ◌, ◌≤ℤ◌, ◌<ℤ◌, unsigned_abs, length, All, OnOk, OnErr, MatchResult, IsTrue, ◌↔◌, ◌⊎◌};
ghost use Rattle.std.specs.Bool.{OnTrue};
ghost use Rattle.law_bounds.specs.linear_programs.Sums.{dot};
ghost use Rattle.lp_fractions.specs.Row.{at};
ghost use Rattle.lp_fractions.specs.Range.{refused};
ghost use Rattle.lp_fractions.specs.pivot_rows.Rows.{AreNarrow};
ghost use Rattle.lp_fractions.specs.pivot_rows.Columns.{AreWithin, AreRising, AreUnits, number_in};
ghost use Rattle.lp_tableaus.specs.Cheaper.{HasLargePlace};

use lp_fractions::{Place, Tally, TooWide, entry_in, fits};

/// The greatest cost of a column: 2^39.
pub(crate) const MOST_COST: i64 = 1 << 39;

/// Accepts a word.
///
/// # Errors
///
/// `Value` with both numbers, where its size is above `most`; the tally counts a refusal then.
pub(crate) fn fits_word(value: i64, most: i64, tally: &mut Tally) -> Result<(), TooWide>
    ensures ok { OnOk result (pos (unsigned_abs value) ≤ℤ most) }
    ensures wide { OnErr result (most <ℤ pos (unsigned_abs value)) }
    ensures counted { MatchResult result (λ _. tally.new ≡ tally.old) (λ _. tally.new ≡ refused tally.old) }
{
    fits(i128::from(value), i128::from(most), tally)
}

/// Accepts a column whose entries are -1, 0 or 1.
///
/// # Errors
///
/// The fault names an entry that is above 1 in size; the tally counts a refusal then.
pub(crate) fn check_entries(places: &[Place], tally: &mut Tally) -> Result<(), TooWide>
    ensures units { OnOk result (AreUnits places.now) }
    ensures wide { OnErr result (HasLargePlace places.now) }
    ensures counted { MatchResult result (λ _. tally.new ≡ tally.old) (λ _. tally.new ≡ refused tally.old) }
{
    for place in places {
        fits(i128::from(place.value), 1, tally)?;
    }
    Ok(())
}

/// Accepts a column whose entries are -1, 0 or 1 and whose cost is at most 2^39.
///
/// # Errors
///
/// The fault names an entry that is above 1 in size, or the cost; the tally counts a refusal then.
pub(crate) fn check_column(places: &[Place], cost: i64, tally: &mut Tally) -> Result<(), TooWide>
    requires { pos 0 ≤ℤ cost }
    ensures units { OnOk result (AreUnits places.now) }
    ensures cost { OnOk result (cost ≤ℤ pos (2 ^ 39)) }
    ensures wide { OnErr result (HasLargePlace places.now ⊎ (pos (2 ^ 39) <ℤ cost)) }
    ensures counted { MatchResult result (λ _. tally.new ≡ tally.old) (λ _. tally.new ≡ refused tally.old) }
{
    check_entries(places, tally)?;
    fits_word(cost, MOST_COST, tally)
}

/// Says whether each entry of a column is -1, 0 or 1.
fn has_units(places: &[Place]) -> bool
    ensures { IsTrue result ↔ All (λ (p : Place). unsigned_abs p.value ≤ 1) places.now }
{
    places.iter().all(|place| place.value.unsigned_abs() <= 1)
}

/// Says whether a column's entries are -1, 0 or 1 and its cost is from 0 to 2^39.
pub(crate) fn is_small(places: &[Place], cost: i64) -> bool
    ensures units { OnTrue result (AreUnits places.now) }
    ensures cost { OnTrue result ((pos 0 ≤ℤ cost) × (cost ≤ℤ pos (2 ^ 39))) }
{
    0 <= cost && cost <= MOST_COST && has_units(places)
}

/// Returns a cost times `kappa`.
pub(crate) fn scaled_cost(kappa: i64, cost: i64) -> i128
    requires size { unsigned_abs kappa ≤ 2 ^ 56 }
    requires kappa { pos 0 ≤ℤ kappa }
    requires low { pos 0 ≤ℤ cost }
    requires high { cost ≤ℤ pos (2 ^ 39) }
    ensures value { result ≡ kappa *ℤ cost }
    ensures low { pos 0 ≤ℤ result }
    ensures high { result ≤ℤ pos (2 ^ 95) }
{
    i128::from(kappa) * i128::from(cost)
}

/// Returns `kappa` times the reduced cost of a column at the prices `y / kappa` of a cost row.
pub(crate) fn reduced_cost(prices: &[i64], rows: usize, places: &[Place], cost: i64) -> i128
    requires narrow { AreNarrow prices.now }
    requires few { rows ≤ 1500 }
    requires long { length prices.now ≡ rows + 2 }
    requires kappa { pos 0 ≤ℤ at prices.now (rows + 1) }
    requires within { AreWithin rows places.now }
    requires rising { AreRising places.now }
    requires units { AreUnits places.now }
    requires low { pos 0 ≤ℤ cost }
    requires high { cost ≤ℤ pos (2 ^ 39) }
    ensures value { result
        ≡ at prices.now (rows + 1) *ℤ cost -ℤ dot rows (at prices.now) (number_in places.now) }
    ensures size { result <ℤ pos 0 → unsigned_abs result ≤ 2 ^ 68 }
{
    scaled_cost(prices[rows + 1], cost) - entry_in(prices, places)
}
