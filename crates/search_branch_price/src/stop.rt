//! Where the loop of a search ends.

ghost use Rattle.std.specs.Prelude.{◌≡◌, ◌≢◌, Bool, true, false, IsTrue};
ghost use Rattle.search_branch_price.specs.Loops.{MayStop};

use crate::progress::Progress;
use search_watch::{Standing, Watch};

/// Returns how far a search is that has taken a leaf with this bound, and may take so many turns.
fn standing_of(progress: &Progress, turns: u32, bound: u64) -> Standing {
    Standing {
        turn: progress.tree.processed(),
        turns,
        cost: match &progress.best {
            Some(roster) => Some(roster.cost),
            None => None,
        },
        bound,
        open: (progress.tree.waiting() as u64).saturating_add(1),
        unpriced: progress.tree.failed(),
    }
}

/// Says whether a search that has taken a leaf with this bound ends before it is processed: where all turns
/// are used, or where the watch stops it, which is asked after each turn but the last.
pub(crate) fn stops_at<W: Watch>(progress: &Progress, turns: u32, bound: u64, watch: &mut W) -> bool
    ensures stops { result ≡ true → MayStop (W.patient watch.old) turns progress.now.tree.processed }
    ensures goes_on { result ≡ false → progress.now.tree.processed ≢ turns }
    ensures stays_patient { IsTrue (W.patient watch.old) → IsTrue (W.patient watch.new) }
{
    let processed = progress.tree.processed();
    if processed == turns {
        return true;
    }
    if processed == 0 {
        return false;
    }
    !watch.goes_on(&standing_of(progress, turns, bound))
}
