//! The covered share of a need.

ghost use Rattle.std.specs.Prelude.{◌≡◌, ◌≤◌, ◌^◌};
ghost use Rattle.model_shift_figures.specs.Shares.{covered_share};

/// Returns which share of a need is covered, in tenths of a percent, rounded down, 0 to 1,000; none where
/// nothing is needed.
#[tactic(auto, unfolding(crate::specs::Shares::covered_share))]
pub fn covered_share(need: u64, short: u64) -> Option<u64>
    requires { need ≤ 2 ^ 50 }
    ensures { result ≡ covered_share need short }
{
    if need == 0 {
        return None;
    }
    Some(need.saturating_sub(short) * 1000 / need)
}
