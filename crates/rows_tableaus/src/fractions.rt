//! Sums, products, row steps and quotients, exact or refused.
//!
//! A sum, a product that is too wide, two fractions whose cross products are wide, and a row step and a
//! quotient that are refused and counted.

use lp_fractions::{Frac, Tally, TooWide, add, compare, div, mul, row_step, scaled, sub};
use std::cmp::Ordering;

const TWO_TO_100: i128 = 0x10_0000_0000_0000_0000_0000_0000;

const TWO_TO_126: i128 = 0x4000_0000_0000_0000_0000_0000_0000_0000;

/// Whether a third and a sixth are a half, a third less a sixth is a sixth, and a sixth over a negative third
/// is a negative half.
fn are_added() -> bool {
    add(&Frac::new(1, 3), &Frac::new(1, 6)) == Ok(Frac::new(1, 2))
        && sub(&Frac::new(1, 3), &Frac::new(1, 6)) == Ok(Frac::new(1, 6))
        && div(&Frac::new(1, 6), &Frac::new(-1, 3)) == Ok(Frac::new(-1, 2))
}

/// Whether a product that is too wide is refused.
fn is_refused(wide: Frac, two: Frac) -> bool {
    mul(&wide, &two) == Err(TooWide::Pair { a: wide, b: two })
}

/// Whether fractions whose cross products are wide are compared.
fn are_compared() -> bool {
    let below = Frac::new(TWO_TO_126 - 1, TWO_TO_126);
    let lower = Frac::new(TWO_TO_126 - 2, TWO_TO_126 - 1);
    compare(&below, &lower) == Ordering::Greater
}

#[test]
fn fractions_are_exact_or_refused(rt: HostRuntime) {
    assert!(rt; are_added() && are_compared());
    assert!(rt; is_refused(Frac::new(TWO_TO_126, 1), Frac::new(2, 1)));
}

/// Whether a step that is too wide is refused and counted, and the row stays.
fn stays(tally: &mut Tally) -> bool {
    let mut row = [TWO_TO_100];
    let refused = TooWide::Row {
        p: TWO_TO_100,
        r: TWO_TO_100,
        a: 1,
        s: 1,
    };
    row_step(&mut row, TWO_TO_100, &[1], 1, tally) == Err(refused)
        && row == [TWO_TO_100]
        && tally.wide() == 1
}

/// Whether a quotient is rounded down, and refused and counted where it is too wide.
fn is_scaled(tally: &mut Tally) -> bool {
    let refused = TooWide::Scaled {
        num: -7,
        den: 2,
        d: 1,
        most: 3,
    };
    scaled(-7, 2, 1, 10, tally) == Ok(-4) && scaled(-7, 2, 1, 3, tally) == Err(refused)
}

#[test]
fn refusals_are_counted(rt: HostRuntime) {
    let mut tally = Tally::new();
    assert!(rt; stays(&mut tally));
    assert!(rt; is_scaled(&mut tally) && tally.wide() == 2);
}
