//! Greatest common divisors.

ghost use Rattle.std.specs.Prelude.{◌≡◌, ◌<◌, ◌^◌, pos, ◌≤ℤ◌, unsigned_abs};
ghost use Rattle.std.specs.Int.{IsGcd};
ghost use Rattle.lp_fractions.specs.Range.{InRange};

const WORD: u128 = u64::MAX as u128;

/// Returns the greatest common divisor of two words; 0 only where both are 0.
fn gcd_words(a: u64, b: u64) -> u64
    ensures { IsGcd a b result }
{
    let mut x = a;
    let mut y = b;
    'steps: while y != 0 {
        let rest = x % y;
        x = y;
        y = rest;
    }
    x
}

/// Returns the greatest common divisor of two unsigned numbers; 0 only where both are 0.
pub fn gcd_unsigned(a: u128, b: u128) -> u128
    ensures { IsGcd a b result }
{
    let mut x = a;
    let mut y = b;
    'steps: while y != 0 {
        if x <= WORD && y <= WORD {
            return u128::from(gcd_words(x as u64, y as u64));
        }
        let rest = x % y;
        x = y;
        y = rest;
    }
    x
}

/// Returns the greatest common divisor of the sizes of two numbers in range; 0 only where both are
/// 0, and never negative.
pub fn gcd(a: i128, b: i128) -> i128
    requires a { InRange a }
    requires b { InRange b }
    ensures value { IsGcd (unsigned_abs a) (unsigned_abs b) (unsigned_abs result) }
    ensures sign { pos 0 ≤ℤ result }
{
    gcd_unsigned(a.unsigned_abs(), b.unsigned_abs()) as i128
}
