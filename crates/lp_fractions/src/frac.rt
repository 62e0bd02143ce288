//! Fractions in lowest terms.

ghost use Rattle.std.specs.Prelude.{◌≡◌, ◌≢◌, ◌<◌, ◌^◌, ◌*◌, pos, ◌*ℤ◌, ◌<ℤ◌, unsigned_abs};
ghost use Rattle.std.specs.Int.{IsGcd};
ghost use Rattle.std.specs.Ordering.{nat_cmp, int_cmp};
ghost use Rattle.lp_fractions.specs.Range.{InRange};
ghost use Rattle.lp_fractions.specs.Fraction.{IsFraction, IsSameSign};

use crate::divisors::gcd;
use std::cmp::Ordering;

/// A fraction in lowest terms, with a positive denominator; both numbers are in range.
#[derive(Clone, Copy, PartialEq, Eq, Debug)]
pub struct Frac {
    num: i128,
    den: i128,
    pub ghost sound: { IsFraction num den },
}

impl Frac {
    /// Returns `num / den` in lowest terms.
    pub fn new(num: i128, den: i128) -> Frac
        requires num { InRange num }
        requires den { InRange den }
        requires nonzero { den ≢ pos 0 }
        ensures { result.num *ℤ den ≡ num *ℤ result.den }
    {
        let g = divisor(num, den);
        Frac {
            num: num / g,
            den: den / g,
        }
    }

    /// Returns the fraction of two numbers that are in lowest terms already.
    pub(crate) fn from_reduced(num: i128, den: i128) -> Frac
        requires { IsFraction num den }
        ensures num { result.num ≡ num }
        ensures den { result.den ≡ den }
    {
        Frac { num, den }
    }

    /// Returns the numerator.
    pub fn num(&self) -> i128
        ensures { result ≡ self.now.num }
    {
        self.num
    }

    /// Returns the denominator, which is above 0.
    pub fn den(&self) -> i128
        ensures value { result ≡ self.now.den }
        ensures positive { pos 0 <ℤ result }
    {
        self.den
    }
}

/// Returns the greatest common divisor of both, with the sign of the second.
fn divisor(num: i128, den: i128) -> i128
    requires num { InRange num }
    requires den { InRange den }
    requires nonzero { den ≢ pos 0 }
    ensures value { IsGcd (unsigned_abs num) (unsigned_abs den) (unsigned_abs result) }
    ensures range { InRange result }
    ensures sign { IsSameSign result den }
{
    let g = gcd(num, den);
    if den < 0 { -g } else { g }
}

/// Returns the order of `a / b` and `c / d`, by quotients and remainders.
fn compare_unsigned(a: u128, b: u128, c: u128, d: u128) -> Ordering
    requires b { 0 < b }
    requires d { 0 < d }
    ensures { result ≡ nat_cmp (a * d) (c * b) }
{
    let (mut a, mut b, mut c, mut d) = (a, b, c, d);
    'turns: loop {
        let first = a / b;
        let second = c / d;
        if first != second {
            return first.cmp(&second);
        }
        let r = a % b;
        let s = c % d;
        if r == 0 || s == 0 {
            return r.cmp(&s);
        }
        (a, b, c, d) = (d, s, b, r);
    }
}

/// Returns the order of two fractions, of any numbers.
pub fn compare(a: &Frac, b: &Frac) -> Ordering
    ensures { result ≡ int_cmp (a.now.num *ℤ b.now.den) (b.now.num *ℤ a.now.den) }
{
    let first = a.num.div_euclid(a.den);
    let second = b.num.div_euclid(b.den);
    if first != second {
        return first.cmp(&second);
    }
    compare_unsigned(
        a.num.rem_euclid(a.den) as u128,
        a.den as u128,
        b.num.rem_euclid(b.den) as u128,
        b.den as u128,
    )
}
