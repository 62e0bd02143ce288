//! Sums and differences.

ghost use Rattle.std.specs.Prelude.{◌≡◌, ℤ, ◌+ℤ◌, ◌-ℤ◌, ◌*ℤ◌, IfOk, IfErr, IfSome, IfNone, OnOk, OnErr, OnSome};
ghost use Rattle.lp_fractions.specs.Sum.{IsCommonForm, SumFits, DifferenceFits};

use crate::divisors::gcd;
use crate::range::{difference_in, product_in, quotient, sum_in};
use crate::{Frac, TooWide};

/// Two fractions over their least common denominator.
#[derive(Clone, Copy)]
struct CommonForm {
    left: i128,
    right: i128,
    den: i128,
}

/// Returns both fractions over their least common denominator, where its numbers are in range.
fn common_form(a: &Frac, b: &Frac) -> Option<CommonForm>
    ensures some { IfSome result
        (λ form. IsCommonForm a.now.num a.now.den b.now.num b.now.den form.left form.right form.den) }
    ensures none { IfNone result ((left right den : ℤ) →
        IsCommonForm a.now.num a.now.den b.now.num b.now.den left right den → ⊥) }
{
    let d = a.den();
    let e = b.den();
    let factor = gcd(d, e);
    let d_part = quotient(d, factor);
    let e_part = quotient(e, factor);
    let left = product_in(a.num(), e_part)?;
    let right = product_in(b.num(), d_part)?;
    let den = product_in(d_part, e)?;
    Some(CommonForm { left, right, den })
}

/// Returns the sum in lowest terms, where the numbers on the way to it are in range.
fn sum_of(a: &Frac, b: &Frac) -> Option<Frac>
    ensures fits { OnSome result (SumFits a.now.num a.now.den b.now.num b.now.den) }
    ensures value { IfSome result (λ r. r.num *ℤ (a.now.den *ℤ b.now.den) ≡
        (a.now.num *ℤ b.now.den +ℤ b.now.num *ℤ a.now.den) *ℤ r.den) }
    ensures none { IfNone result (SumFits a.now.num a.now.den b.now.num b.now.den → ⊥) }
{
    let form = common_form(a, b)?;
    let num = sum_in(form.left, form.right)?;
    Some(Frac::new(num, form.den))
}

/// Returns the difference in lowest terms, where the numbers on the way to it are in range.
fn difference_of(a: &Frac, b: &Frac) -> Option<Frac>
    ensures fits { OnSome result (DifferenceFits a.now.num a.now.den b.now.num b.now.den) }
    ensures value { IfSome result (λ r. r.num *ℤ (a.now.den *ℤ b.now.den) ≡
        (a.now.num *ℤ b.now.den -ℤ b.now.num *ℤ a.now.den) *ℤ r.den) }
    ensures none { IfNone result (DifferenceFits a.now.num a.now.den b.now.num b.now.den → ⊥) }
{
    let form = common_form(a, b)?;
    let num = difference_in(form.left, form.right)?;
    Some(Frac::new(num, form.den))
}

/// Returns the sum in lowest terms.
///
/// # Errors
///
/// `Pair` with both fractions, exactly where, with `g` the greatest common divisor of the denominators,
/// `a.num * (b.den / g)`, `b.num * (a.den / g)`, their sum or `(a.den / g) * b.den` is out of range, also
/// where the sum in lowest terms would be in range.
pub fn add(a: &Frac, b: &Frac) -> Result<Frac, TooWide>
    ensures fits { OnOk result (SumFits a.now.num a.now.den b.now.num b.now.den) }
    ensures ok { IfOk result (λ r. r.num *ℤ (a.now.den *ℤ b.now.den) ≡
        (a.now.num *ℤ b.now.den +ℤ b.now.num *ℤ a.now.den) *ℤ r.den) }
    ensures pair { IfErr result (λ fault. fault ≡ TooWide.Pair a.now b.now) }
    ensures wide { OnErr result (SumFits a.now.num a.now.den b.now.num b.now.den → ⊥) }
{
    match sum_of(a, b) {
        Some(sum) => Ok(sum),
        None => Err(TooWide::Pair { a: *a, b: *b }),
    }
}

/// Returns the difference in lowest terms.
///
/// # Errors
///
/// `Pair` with both fractions, exactly where, with `g` the greatest common divisor of the denominators,
/// `a.num * (b.den / g)`, `b.num * (a.den / g)`, their difference or `(a.den / g) * b.den` is out of range,
/// also where the difference in lowest terms would be in range.
pub fn sub(a: &Frac, b: &Frac) -> Result<Frac, TooWide>
    ensures fits { OnOk result (DifferenceFits a.now.num a.now.den b.now.num b.now.den) }
    ensures ok { IfOk result (λ r. r.num *ℤ (a.now.den *ℤ b.now.den) ≡
        (a.now.num *ℤ b.now.den -ℤ b.now.num *ℤ a.now.den) *ℤ r.den) }
    ensures pair { IfErr result (λ fault. fault ≡ TooWide.Pair a.now b.now) }
    ensures wide { OnErr result (DifferenceFits a.now.num a.now.den b.now.num b.now.den → ⊥) }
{
    match difference_of(a, b) {
        Some(difference) => Ok(difference),
        None => Err(TooWide::Pair { a: *a, b: *b }),
    }
}
