//! The least common denominator of the weights.

ghost use Rattle.std.specs.Prelude.{◌<◌, ◌≤◌, IfSome, IfNone};
ghost use Rattle.search_arc_weights.specs.Denominators.{IsCommonMultiple, IsPast, IsDenominator, AreAllPast};

use lp_fractions::gcd_unsigned;
use search_masters::Weight;

// The greatest denominator: with it a sum of the weights of 64 trees, in units of one part, is below 2^106,
// far within 128 bits.
const MOST_DENOMINATOR: u128 = 1 << 100;

// Returns the least common multiple of two numbers, or none where it is above 2^100.
fn common_multiple(d: u128, n: u128) -> Option<u128>
    requires d { 1 ≤ d }
    requires n { 1 ≤ n }
    ensures multiple { IfSome result (IsCommonMultiple d n) }
    ensures past { IfNone result (IsPast d n) }
{
    let part = n / gcd_unsigned(n, d);
    let multiple = part.checked_mul(d)?;
    if multiple > MOST_DENOMINATOR {
        return None;
    }
    Some(multiple)
}

// Returns the least common denominator of the weights, or none where it is above 2^100.
pub fn common_denominator(weights: &[Weight]) -> Option<u128>
    ensures common { IfSome result (IsDenominator weights.now) }
    ensures past { IfNone result (AreAllPast weights.now) }
{
    let mut d = 1;
    for weight in weights {
        d = common_multiple(d, weight.x.den().unsigned_abs())?;
    }
    Some(d)
}
