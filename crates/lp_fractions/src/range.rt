//! Whole numbers within 2^127 - 1.

ghost use Rattle.std.specs.Prelude.{◌≡◌, ◌<◌, ◌^◌, pos, ◌+ℤ◌, ◌*ℤ◌, ◌-ℤ◌, ◌<ℤ◌, unsigned_abs};
ghost use Rattle.std.specs.Int.{◌∣◌};
ghost use Rattle.std.specs.Option.{SomeIff};
ghost use Rattle.lp_fractions.specs.Range.{InRange};

/// Returns the product of two words.
fn product_of_words(a: i64, b: i64) -> i128
    ensures value { result ≡ a *ℤ b }
    ensures range { InRange result }
{
    i128::from(a) * i128::from(b)
}

/// Returns the exact quotient of two words by a positive divisor.
fn quotient_of_words(value: i64, divisor: i64) -> i128
    requires positive { pos 0 <ℤ divisor }
    requires divides { unsigned_abs divisor ∣ unsigned_abs value }
    ensures { divisor *ℤ result ≡ value }
{
    i128::from(value / divisor)
}

/// Returns the number if it is in range.
fn within(value: i128) -> Option<i128>
    ensures { SomeIff result (InRange value) value }
{
    if value == i128::MIN {
        None
    } else {
        Some(value)
    }
}

/// Returns the product, where it is in range.
pub fn product_in(a: i128, b: i128) -> Option<i128>
    ensures { SomeIff result (InRange (a *ℤ b)) (a *ℤ b) }
{
    if let (Ok(a), Ok(b)) = (i64::try_from(a), i64::try_from(b)) {
        return Some(product_of_words(a, b));
    }
    let product = a.checked_mul(b)?;
    within(product)
}

/// Returns the sum, where it is in range.
pub fn sum_in(a: i128, b: i128) -> Option<i128>
    ensures { SomeIff result (InRange (a +ℤ b)) (a +ℤ b) }
{
    let sum = a.checked_add(b)?;
    within(sum)
}

/// Returns the difference, where it is in range.
pub fn difference_in(a: i128, b: i128) -> Option<i128>
    ensures { SomeIff result (InRange (a -ℤ b)) (a -ℤ b) }
{
    let difference = a.checked_sub(b)?;
    within(difference)
}

/// Returns the exact quotient by a positive divisor.
pub fn quotient(value: i128, divisor: i128) -> i128
    requires positive { pos 0 <ℤ divisor }
    requires divides { unsigned_abs divisor ∣ unsigned_abs value }
    ensures { divisor *ℤ result ≡ value }
{
    if let (Ok(value), Ok(divisor)) = (i64::try_from(value), i64::try_from(divisor)) {
        quotient_of_words(value, divisor)
    } else {
        value / divisor
    }
}
