//! Sums and products of whole numbers in range, or refused.

ghost use Rattle.std.specs.Prelude.{◌≡◌, ◌<◌, ◌≤◌, ◌^◌, pos, ◌+ℤ◌, ◌*ℤ◌, ◌<ℤ◌, ◌≤ℤ◌, unsigned_abs, IfErr, OnOk, OnErr, MatchResult, IsTrue, ◌↔◌};
ghost use Rattle.std.specs.Result.{OkIff};
ghost use Rattle.lp_fractions.specs.Range.{InRange, refused};
ghost use Rattle.lp_fractions.specs.Scaled.{scaled_floor};

use crate::floor::floor_of_product;
use crate::range::{product_in, sum_in};
use crate::{Tally, TooWide};

/// Returns the sum.
///
/// # Errors
///
/// `Sum` with both numbers, exactly where their sum is out of range; the tally counts a refusal then.
pub fn sum(a: i128, b: i128, tally: &mut Tally) -> Result<i128, TooWide>
    ensures value { OkIff result (InRange (a +ℤ b)) (a +ℤ b) }
    ensures fault { IfErr result (λ fault. fault ≡ TooWide.Sum a b) }
    ensures counted { MatchResult result (λ _. tally.new ≡ tally.old) (λ _. tally.new ≡
        refused tally.old) }
{
    match sum_in(a, b) {
        Some(sum) => Ok(sum),
        None => {
            tally.refuse();
            Err(TooWide::Sum { a, b })
        }
    }
}

/// Returns the product.
///
/// # Errors
///
/// `Product` with both numbers, exactly where their product is out of range; the tally counts a refusal then.
pub fn product(a: i128, b: i128, tally: &mut Tally) -> Result<i128, TooWide>
    ensures value { OkIff result (InRange (a *ℤ b)) (a *ℤ b) }
    ensures fault { IfErr result (λ fault. fault ≡ TooWide.Product a b) }
    ensures counted { MatchResult result (λ _. tally.new ≡ tally.old) (λ _. tally.new ≡
        refused tally.old) }
{
    match product_in(a, b) {
        Some(product) => Ok(product),
        None => {
            tally.refuse();
            Err(TooWide::Product { a, b })
        }
    }
}

/// Says whether the number is within a limit in size.
fn is_within(value: i128, most: i128) -> bool
    ensures { IsTrue result ↔ (pos (unsigned_abs value) ≤ℤ most) }
{
    most >= 0 && value.unsigned_abs() <= most.unsigned_abs()
}

/// Accepts a value.
///
/// # Errors
///
/// `Value` with both numbers, exactly where the value's size is above `most`; the tally counts a refusal
/// then.
pub fn fits(value: i128, most: i128, tally: &mut Tally) -> Result<(), TooWide>
    ensures ok { OnOk result (pos (unsigned_abs value) ≤ℤ most) }
    ensures wide { OnErr result (most <ℤ pos (unsigned_abs value)) }
    ensures fault { IfErr result (λ fault. fault ≡ TooWide.Value value most) }
    ensures counted { MatchResult result (λ _. tally.new ≡ tally.old) (λ _. tally.new ≡
        refused tally.old) }
{
    if is_within(value, most) {
        return Ok(());
    }
    tally.refuse();
    Err(TooWide::Value { value, most })
}

/// Returns the floor of `num * d / den`, also where the product is out of range.
///
/// # Errors
///
/// `Scaled` with the four numbers, exactly where the floor's size is above `most`; the tally counts a refusal
/// then.
pub fn scaled(num: i128, den: i128, d: u64, most: i128, tally: &mut Tally) -> Result<i128, TooWide>
    requires den { pos 0 <ℤ den }
    requires d { (1 ≤ d) × (d ≤ 2 ^ 30) }
    requires most { (pos 0 ≤ℤ most) × InRange most }
    ensures value { OkIff result (pos (unsigned_abs (scaled_floor num den d)) ≤ℤ most)
        (scaled_floor num den d) }
    ensures fault { IfErr result (λ fault. fault ≡ TooWide.Scaled num den d most) }
    ensures counted { MatchResult result (λ _. tally.new ≡ tally.old) (λ _. tally.new ≡
        refused tally.old) }
{
    if let Some(floor) = floor_of_product(num, d, den) {
        if is_within(floor, most) {
            return Ok(floor);
        }
    }
    tally.refuse();
    Err(TooWide::Scaled { num, den, d, most })
}
