//! Products and quotients.

ghost use Rattle.std.specs.Prelude.{◌≡◌, ◌≢◌, ◌⊎◌, ℤ, pos, neg_ℤ, ◌*ℤ◌, IfOk, IfErr, IfSome, IfNone, OnErr};
ghost use Rattle.std.specs.Option.{SomeIff};
ghost use Rattle.lp_fractions.specs.Range.{InRange};
ghost use Rattle.lp_fractions.specs.Fraction.{IsFraction};

use crate::range::product_in;
use crate::{Frac, TooWide};

/// Returns the products of the numerators and of the denominators, where both are in range.
fn joined(left: &Frac, right: &Frac) -> Option<(i128, i128)>
    ensures { SomeIff result (InRange (left.now.num *ℤ right.now.num) ×
        InRange (left.now.den *ℤ right.now.den)) (record
        { 0 = left.now.num *ℤ right.now.num; 1 = left.now.den *ℤ right.now.den }) }
{
    let num = product_in(left.num(), right.num())?;
    let den = product_in(left.den(), right.den())?;
    Some((num, den))
}

/// Returns the product in lowest terms, where it is in range.
fn product_of(a: &Frac, b: &Frac) -> Option<Frac>
    ensures some { IfSome result (λ r. r.num *ℤ (a.now.den *ℤ b.now.den) ≡
        (a.now.num *ℤ b.now.num) *ℤ r.den) }
    ensures none { IfNone result ((x y : ℤ) → IsFraction x y → x *ℤ (a.now.den *ℤ b.now.den) ≡
        (a.now.num *ℤ b.now.num) *ℤ y → ⊥) }
{
    let left = Frac::new(a.num(), b.den());
    let right = Frac::new(b.num(), a.den());
    let (num, den) = joined(&left, &right)?;
    Some(Frac::from_reduced(num, den))
}

/// Returns 1 divided by the fraction.
fn inverse(b: &Frac) -> Frac
    requires { b.now.num ≢ pos 0 }
    ensures { ((result.num ≡ b.now.den) × (result.den ≡ b.now.num)) ⊎ ((result.num ≡
        neg_ℤ b.now.den) × (result.den ≡ neg_ℤ b.now.num)) }
{
    if b.num() < 0 {
        Frac::from_reduced(-b.den(), -b.num())
    } else {
        Frac::from_reduced(b.den(), b.num())
    }
}

/// Returns the product in lowest terms.
///
/// # Errors
///
/// `Pair` with both fractions, exactly where the product in lowest terms is out of range.
pub fn mul(a: &Frac, b: &Frac) -> Result<Frac, TooWide>
    ensures ok { IfOk result (λ r. r.num *ℤ (a.now.den *ℤ b.now.den) ≡
        (a.now.num *ℤ b.now.num) *ℤ r.den) }
    ensures pair { IfErr result (λ fault. fault ≡ TooWide.Pair a.now b.now) }
    ensures wide { OnErr result ((x y : ℤ) → IsFraction x y → x *ℤ (a.now.den *ℤ b.now.den) ≡
        (a.now.num *ℤ b.now.num) *ℤ y → ⊥) }
{
    match product_of(a, b) {
        Some(product) => Ok(product),
        None => Err(TooWide::Pair { a: *a, b: *b }),
    }
}

/// Returns the quotient in lowest terms.
///
/// # Errors
///
/// `Pair` with both fractions, exactly where the quotient in lowest terms is out of range.
pub fn div(a: &Frac, b: &Frac) -> Result<Frac, TooWide>
    requires { b.now.num ≢ pos 0 }
    ensures ok { IfOk result (λ r. r.num *ℤ (a.now.den *ℤ b.now.num) ≡
        (a.now.num *ℤ b.now.den) *ℤ r.den) }
    ensures pair { IfErr result (λ fault. fault ≡ TooWide.Pair a.now b.now) }
    ensures wide { OnErr result ((x y : ℤ) → IsFraction x y → x *ℤ (a.now.den *ℤ b.now.num) ≡
        (a.now.num *ℤ b.now.den) *ℤ y → ⊥) }
{
    match product_of(a, &inverse(b)) {
        Some(quotient) => Ok(quotient),
        None => Err(TooWide::Pair { a: *a, b: *b }),
    }
}
