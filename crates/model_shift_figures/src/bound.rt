//! What a bound tells of a cost.

ghost use Rattle.std.specs.Prelude.{◌≡◌, ◌≤◌, ◌<◌};
ghost use Rattle.model_shift_figures.specs.Bounds.{permille_of, saving_at};

/// What a bound tells of the cost of a roster.
#[derive(Clone, Copy, Debug, PartialEq, Eq, Drop)]
pub enum Saving {
    /// No allowed roster costs less.
    NoneLess,
    /// Nothing is proved of the cost.
    Unknown,
    /// A cheaper roster saves at most `amount`, which is at most `permille` tenths of a percent of the cost,
    /// rounded up.
    AtMost { amount: u64, permille: u64 },
}

// Returns how many tenths of a percent of a cost an amount is, rounded up.
fn share_of(amount: u64, cost: u64) -> u128
    requires { amount < cost }
    ensures value { result ≡ permille_of amount cost }
    ensures small { result ≤ 1000 }
{
    (amount as u128 * 1000 + (cost as u128 - 1)) / cost as u128
}

/// Returns what a bound tells of a cost: where the cost is the bound, also 0, no allowed roster costs less;
/// at another cost the bound 0 proves nothing.
#[tactic(auto, unfolding(crate::specs::Bounds::saving_at))]
pub fn saving_at(cost: u64, bound: u64) -> Saving
    ensures { result ≡ saving_at cost bound }
{
    if cost <= bound {
        return Saving::NoneLess;
    }
    if bound == 0 {
        return Saving::Unknown;
    }
    let amount = cost - bound;
    Saving::AtMost {
        amount,
        permille: share_of(amount, cost) as u64,
    }
}
