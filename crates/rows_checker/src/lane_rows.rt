//! Letters counted by place, and the first of the least sums.

ghost use Rattle.std.specs.Prelude.{IsTrue};
ghost use Rattle.check_lanes.specs.LeastSum.{AreSmall};

use check_lanes::{add_matches, least_sum};

#[test]
fn letters_are_counted_by_place(rt: HostRuntime) {
    let mut counts = [0, 0, 0, 0];
    add_matches(&mut counts, b".aaa", b'a');
    assert_eq!(rt; counts, [0, 1, 1, 1]);
}

#[test]
fn the_first_of_equal_sums_is_told(rt: HostRuntime) {
    assert_eq!(rt; least_sum(&[], &[]), None);
    assert_eq!(rt; least_sum(&[3, 1, 1], &[0, 0, 0]), Some((1, 1)));
    assert_eq!(rt; least_sum(&[5, 1, 7], &[2, 6, 0]), Some((7, 0)));
}

/// Whether each number is at most 2^61 in size.
fn are_small(numbers: &[i64]) -> bool
    ensures { IsTrue result → AreSmall numbers.now }
{
    numbers
        .iter()
        .all(|number| number.unsigned_abs() <= 2305843009213693952)
}

#[test]
fn the_last_of_many_sums_is_found(rt: HostRuntime) {
    let mut x = [0; 65];
    for place in 0..65 {
        x[place] = 64 - place as i64;
    }
    let y = [0; 65];
    assert!(rt; are_small(&x) && are_small(&y));
    assert_eq!(rt; least_sum(&x, &y), Some((0, 64)));
}
