//! The comparison without overflow.

ghost use Rattle.std.specs.Prelude.{◌≡◌, ◌≤◌, ◌<◌, ◌^◌, ◌*◌, ◌↔◌, IsTrue, pos, ◌*ℤ◌, ◌+ℤ◌, ◌≤ℤ◌};
ghost use Rattle.model_rosters.specs.Sums.{Within};
ghost use Rattle.lp_near_prices.specs.Shares.{unit};

/// The denominator of weights: 2^56.
pub(crate) const UNIT: u64 = 1 << 56;

/// Says whether a value with a loss, in units of `1 / d`, is at least a cost in units of 2^-56.
pub(crate) fn is_within(cost: u128, d: u64, value: i128, loss: u64) -> bool
    requires d { d ≤ 2 ^ 30 }
    requires value { Within (2 ^ 117) value }
    ensures { IsTrue result ↔ ((pos cost *ℤ pos d) ≤ℤ ((value +ℤ pos loss) *ℤ pos unit)) }
{
    let shown = value + i128::from(loss);
    if shown < 0 {
        return false;
    }
    is_at_most(cost, d, shown.unsigned_abs())
}

/// Says whether a cost in units of 2^-56 is at most a value in units of `1 / d`. The cost is taken apart
/// into its whole part and the rest, so no product overflows.
fn is_at_most(cost: u128, d: u64, value: u128) -> bool
    requires d { d ≤ 2 ^ 30 }
    ensures { IsTrue result ↔ (cost * d ≤ value * unit) }
{
    let unit = u128::from(UNIT);
    let whole = (cost / unit) * u128::from(d);
    let rest = (cost % unit) * u128::from(d);
    whole + (rest + (unit - 1)) / unit <= value
}
