//! Reduced costs of listed columns.

ghost use Rattle.std.specs.Prelude.{◌≡◌, ◌≤◌, ◌<◌, ◌^◌, pos, ◌*ℤ◌, ◌≤ℤ◌, ◌<ℤ◌, length, unsigned_abs, ℤ, All, IfOk, IfErr, IfSome, IfNone};
ghost use Rattle.model_rosters.specs.Sums.{Within};
ghost use Rattle.lp_fractions.specs.Row.{at};
ghost use Rattle.lp_tableaus.specs.Refused.{AreWidePrices};
ghost use Rattle.lp_tableaus.specs.Risen.{HasRisen};
ghost use Rattle.search_node_columns.specs.Priced.{AreNarrowPrices, IsPlain, ArePlain, listed_reduced, IsCheaper, AreNoneCheaper};

use crate::workspace::Held;
use lp_fractions::{MOST_NUMBER, Place, Tally, TooWide, fits};

/// The greatest size of a price of a row, and of their denominator.
const WIDEST: u128 = MOST_NUMBER as u128;

/// Returns what an entry of a column is worth at the prices of the rows.
fn entry_worth(y: &[i128], place: &Place) -> i128
    requires row { place.now.row < length y.now }
    requires narrow { unsigned_abs (at y.now place.now.row) ≤ 2 ^ 56 }
    requires unit { unsigned_abs place.now.value ≤ 1 }
    ensures value { result ≡ at y.now place.now.row *ℤ place.now.value }
    ensures within { Within (2 ^ 56) result }
{
    let price = y[place.row as usize];
    match place.value {
        1 => price,
        -1 => -price,
        _ => 0,
    }
}

/// Returns `kappa` times a cost.
fn scaled_cost(kappa: i128, cost: i64) -> i128
    requires some { pos 0 <ℤ kappa }
    requires narrow { unsigned_abs kappa ≤ 2 ^ 56 }
    requires cost { (pos 0 ≤ℤ cost) × (cost ≤ℤ pos (2 ^ 39)) }
    ensures value { result ≡ kappa *ℤ cost }
    ensures within { Within (2 ^ 95) result }
{
    kappa * i128::from(cost)
}

/// Returns `kappa` times the reduced cost of a listed column.
fn reduced_cost(held: &Held, y: &[i128], kappa: i128) -> i128
    requires narrow { AreNarrowPrices y.now kappa }
    requires plain { IsPlain (length y.now) held.now }
    ensures { result ≡ listed_reduced y.now kappa held.now }
{
    let mut worth = 0i128;
    for place in held.places.as_slice() {
        worth += entry_worth(y, place);
    }
    scaled_cost(kappa, held.cost) - worth
}

/// Returns the listed column of the least reduced cost where that is negative, the first of several.
pub(crate) fn find_cheaper(held: &[Held], y: &[i128], kappa: i128) -> Option<usize>
    requires narrow { AreNarrowPrices y.now kappa }
    requires plain { ArePlain (length y.now) held.now }
    ensures some { IfSome result (IsCheaper y.now kappa held.now) }
    ensures none { IfNone result (AreNoneCheaper y.now kappa held.now) }
{
    let mut least = 0i128;
    let mut found = None;
    for (column, one) in held.iter().enumerate() {
        let reduced = reduced_cost(one, y, kappa);
        if reduced < least {
            least = reduced;
            found = Some(column);
        }
    }
    found
}

/// Returns a number that is above 2^56 in size, if there is one: `kappa`, which is the denominator of
/// the prices `y` of the rows, or the first such price.
pub fn first_wide(y: &[i128], kappa: i128) -> Option<i128>
    ensures some { IfSome result (λ z. (2 ^ 56 < unsigned_abs z) × AreWidePrices (length y.now) y.now kappa) }
    ensures kappa { IfNone result (unsigned_abs kappa ≤ 2 ^ 56) }
    ensures prices { IfNone result (All (λ (z : ℤ). unsigned_abs z ≤ 2 ^ 56) y.now) }
{
    if kappa.unsigned_abs() > WIDEST {
        return Some(kappa);
    }
    for price in y {
        if price.unsigned_abs() > WIDEST {
            return Some(*price);
        }
    }
    None
}

/// Accepts prices that are within 2^56 in size, as their denominator is.
///
/// # Errors
///
/// The fault names a number that is above 2^56 in size, and the tally counts a refusal.
pub(crate) fn check_narrow(y: &[i128], kappa: i128, tally: &mut Tally) -> Result<(), TooWide>
    requires kappa { pos 0 <ℤ kappa }
    ensures narrow { IfOk result (λ _. AreNarrowPrices y.now kappa) }
    ensures wide { IfErr result (λ _. HasRisen tally.old.wide tally.new.wide
        × AreWidePrices (length y.now) y.now kappa) }
    ensures counts { (tally.old.wide ≤ tally.new.wide) × (tally.new.spent ≡ tally.old.spent) }
{
    let _count = tally.wide();
    match first_wide(y, kappa) {
        Some(number) => fits(number, i128::from(MOST_NUMBER), tally),
        None => Ok(()),
    }
}
