//! The prices of one cell.

ghost use Rattle.std.specs.Prelude.{pos, ◌<ℤ◌};

use lp_fractions::Tally;
use lp_rounded_prices::to_prices;
use std::alloc::Global;

/// Whether a price `y / kappa` of one cell is rounded to `cell / d`.
fn is_rounded(alloc: Global, y: i128, kappa: i128, cell: i128, d: u64) -> bool
    requires { pos 0 <ℤ kappa }
{
    let mut tally = Tally::new();
    match to_prices(alloc, &[y, 0, 0], kappa, 1, &[], &mut tally) {
        Ok(prices) => prices.d == d && prices.cell.as_slice() == [cell].as_slice(),
        Err(_) => false,
    }
}

/// Whether a price of one cell is too wide, and counted.
fn is_wide(alloc: Global, y: i128) -> bool {
    let mut tally = Tally::new();
    to_prices(alloc, &[y, 0, 0], 1, 1, &[], &mut tally).is_err() && tally.wide() == 1
}

#[test]
fn prices_of_one_cell(rt: HostRuntime) {
    assert!(rt; is_rounded(rt.alloc(), 1, 3, 1, 3));
    assert!(rt; is_rounded(rt.alloc(), -1, 1 << 31, -1, 1 << 20));
    assert!(rt; is_wide(rt.alloc(), 1 << 82));
}
