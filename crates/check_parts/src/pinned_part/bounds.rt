//! The bounds that cuts leave an arc.

ghost use Rattle.std.specs.Prelude.{◌≡◌, ◌≤◌, All};
ghost use Rattle.model_rosters.specs.Cuts.{lo, hi};
ghost use Rattle.model_rosters.specs.Limits.{IsSmallCut};

use model_rosters::{ArcKey, Cut, Side};

/// Returns the least count that the cuts leave an arc.
pub fn low(cuts: &[Cut], arc: &ArcKey) -> u32
    requires { All IsSmallCut cuts.now }
    ensures value { result ≡ lo cuts.now arc.now }
    ensures within { result ≤ 64 }
{
    let mut least = 0;
    for cut in cuts {
        if cut.arc == *arc && cut.side == Side::High {
            least = (cut.b + 1).max(least);
        }
    }
    least
}

/// Returns the greatest count that the cuts leave an arc, of counts that are at most `most`.
pub fn high(most: u32, cuts: &[Cut], arc: &ArcKey) -> u32
    ensures value { result ≡ hi most cuts.now arc.now }
    ensures within { result ≤ most }
{
    let mut greatest = most;
    for cut in cuts {
        if cut.arc == *arc && cut.side == Side::Low {
            greatest = cut.b.min(greatest);
        }
    }
    greatest
}
