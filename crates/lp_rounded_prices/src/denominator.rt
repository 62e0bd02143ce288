//! The least denominator that makes prices whole.

ghost use Rattle.std.specs.Prelude.{ℕ, ℤ, ◌≤◌, ◌<◌, ◌^◌, pos, ◌<ℤ◌, List, ◌++◌, IfSome, IfNone};
ghost use Rattle.lp_fractions.specs.Range.{InRange};
ghost use Rattle.law_bounds.specs.master_laws.Rounding.{IsLeastWhole, IsDenominator};
ghost use Rattle.lp_rounded_prices.specs.Denominators.{IsNext, IsPast, AreAllPast, IsLeastFor};

use lp_fractions::gcd_unsigned;

/// The greatest denominator of prices, 2^30.
const MOST_DENOMINATOR: u128 = 1 << 30;

/// Returns the least multiple of `d` that makes the number over `kappa` whole, or none where it is
/// above 2^30.
fn next_denominator(d: u64, number: i128, kappa: i128) -> Option<u64>
    requires some { 1 ≤ d }
    requires few { d ≤ 2 ^ 30 }
    requires kappa { pos 0 <ℤ kappa }
    ensures next { IfSome result (IsNext d number kappa) }
    ensures none { IfNone result (IsPast d number kappa) }
{
    let size = kappa.unsigned_abs();
    let part = size / gcd_unsigned(number.unsigned_abs(), size);
    if part > MOST_DENOMINATOR {
        return None;
    }
    let next = u128::from(d) / gcd_unsigned(u128::from(d), part) * part;
    if next > MOST_DENOMINATOR {
        return None;
    }
    Some(next as u64)
}

/// Returns the least multiple of `d` that makes these numbers over `kappa` whole too, or none where it
/// is above 2^30.
fn with_numbers(d: u64, numbers: &[i128], kappa: i128) -> Option<u64>
    requires some { 1 ≤ d }
    requires few { d ≤ 2 ^ 30 }
    requires kappa { pos 0 <ℤ kappa }
    ensures least { (xs : List ℤ) → IsLeastFor kappa xs d →
        IfSome result (IsLeastFor kappa (xs ++ numbers.now)) }
    ensures range { IfSome result (λ e. (1 ≤ e) × (e ≤ 2 ^ 30)) }
    ensures none { (xs : List ℤ) → IsLeastFor kappa xs d →
        IfNone result (AreAllPast kappa (xs ++ numbers.now)) }
{
    let mut least = d;
    for number in numbers {
        least = next_denominator(least, *number, kappa)?;
    }
    Some(least)
}

/// Returns the least number that makes all these numbers over `kappa` whole, or none where it is above
/// 2^30.
pub fn least_denominator(first: &[i128], second: &[i128], kappa: i128) -> Option<u64>
    requires kappa { pos 0 <ℤ kappa }
    ensures least { IfSome result (IsLeastWhole kappa (first.now ++ second.now)) }
    ensures range { IfSome result (λ d. (1 ≤ d) × (d ≤ 2 ^ 30)) }
    ensures none { IfNone result (AreAllPast kappa (first.now ++ second.now)) }
{
    let d = with_numbers(1, first, kappa)?;
    with_numbers(d, second, kappa)
}

/// Returns the least number that makes all these numbers over `kappa` whole, or 2^20 where it is above
/// 2^30.
pub(crate) fn denominator(first: &[i128], second: &[i128], kappa: i128) -> u64
    requires kappa { pos 0 <ℤ kappa }
    ensures value { IsDenominator kappa (first.now ++ second.now) result }
    ensures range { (1 ≤ result) × (result ≤ 2 ^ 30) }
{
    match least_denominator(first, second, kappa) {
        Some(d) => d,
        None => 1 << 20,
    }
}
