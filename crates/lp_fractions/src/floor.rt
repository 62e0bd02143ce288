//! The floor of a product over a number.

ghost use Rattle.std.specs.Prelude.{◌≡◌, ◌+◌, ◌*◌, ◌<◌, ◌≤◌, ◌^◌, pos, ◌+ℤ◌, ◌*ℤ◌, ◌<ℤ◌, FitsSigned};
ghost use Rattle.std.specs.Option.{SomeIff};
ghost use Rattle.std.specs.Int.{w128};
ghost use Rattle.lp_fractions.specs.Scaled.{scaled_floor};

/// Returns the quotient and the remainder by `den` of twice a number and `more`, from those of the
/// number.
fn doubled(quotient: u64, rest: u128, more: u128, den: u128) -> (u64, u128)
    requires quotient { quotient < 2 ^ 31 }
    requires rest { rest < den }
    requires more { more < den }
    requires den { den < 2 ^ 127 }
    ensures value { result.0 * den + result.1 ≡ 2 * (quotient * den + rest) + more }
    ensures rest { result.1 < den }
{
    let (mut whole, mut left) = (2 * quotient, 2 * rest);
    if left >= den {
        whole += 1;
        left -= den;
    }
    left += more;
    if left >= den {
        whole += 1;
        left -= den;
    }
    (whole, left)
}

/// Returns the quotient and the remainder of `value * d` by `den`, by doubling, since the product
/// may be wider than any type.
fn divided_product(value: u128, d: u64, den: u128) -> (u64, u128)
    requires value { value < den }
    requires d { d ≤ 2 ^ 30 }
    requires den { den < 2 ^ 127 }
    ensures value { result.0 * den + result.1 ≡ value * d }
    ensures rest { result.1 < den }
    ensures bound { result.0 ≤ d }
{
    if d == 0 {
        return (0, 0);
    }
    let (quotient, rest) = divided_product(value, d / 2, den);
    let more = if d % 2 == 0 { 0 } else { value };
    doubled(quotient, rest, more, den)
}

/// Returns `quotient * d + part`, where it fits an `i128`.
fn total(quotient: i128, d: u64, part: u64) -> Option<i128>
    requires { part ≤ d }
    ensures { SomeIff result (FitsSigned w128 (quotient *ℤ pos d +ℤ pos part))
        (quotient *ℤ pos d +ℤ pos part) }
{
    if quotient < 0 {
        let upper = (quotient + 1).checked_mul(i128::from(d))?;
        upper.checked_sub(i128::from(d - part))
    } else {
        let lower = quotient.checked_mul(i128::from(d))?;
        lower.checked_add(i128::from(part))
    }
}

/// Returns the floor of `num * d / den`, where it fits an `i128`.
pub fn floor_of_product(num: i128, d: u64, den: i128) -> Option<i128>
    requires den { pos 0 <ℤ den }
    requires d { (1 ≤ d) × (d ≤ 2 ^ 30) }
    ensures { SomeIff result (FitsSigned w128 (scaled_floor num den d)) (scaled_floor num den d) }
{
    let quotient = num.div_euclid(den);
    let rest = num.rem_euclid(den) as u128;
    let (part, _) = divided_product(rest, d, den as u128);
    total(quotient, d, part)
}
