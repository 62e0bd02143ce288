//! Ends that are counted.

ghost use Rattle.std.specs.Prelude.{◌≡◌, ◌≤◌};
ghost use Rattle.search_masters.specs.Counted.{IsCounted};
ghost use Rattle.search_masters.specs.Refusals.{counted};

use crate::ends::{Cause, NodeEnd};
use lp_fractions::{Budget, Tally, fits};

/// Says whether a node was given up for a number that was too wide.
pub(crate) fn is_wide(end: &NodeEnd) -> bool {
    matches!(end, NodeEnd::Failed(Cause::Wide(_)))
}

/// Says whether a node ended without prices.
pub(crate) fn is_without_prices(end: &NodeEnd) -> bool {
    matches!(end, NodeEnd::Failed(_) | NodeEnd::Stopped(_))
}

/// Counts why a master was given up, if it was.
pub(crate) fn count_end(end: &NodeEnd, tally: &mut Tally)
    ensures counted { IsCounted end.now tally.old tally.new }
    ensures rises { (tally.old.wide ≤ tally.new.wide) × (tally.old.spent ≤ tally.new.spent) }
{
    let _wide = tally.wide();
    let _spent = tally.spent();
    match end {
        NodeEnd::Best { .. }
        | NodeEnd::Near { .. }
        | NodeEnd::Failed(Cause::Rows { .. })
        | NodeEnd::Stopped(_) => {}
        NodeEnd::Failed(Cause::Wide(_)) => {
            // 1 is above 0 in size.
            let _refused = fits(1, 0, tally);
        }
        NodeEnd::Failed(Cause::Spent { .. }) => {
            // A budget of no pivots is spent.
            let _taken = Budget::new(0).take(tally);
        }
    }
}

/// Returns the count of refusals after the end of a node.
pub(crate) fn count_refusal(refused: u64, end: &NodeEnd) -> u64
    ensures { result ≡ counted refused end.now }
{
    match end {
        NodeEnd::Best { .. }
        | NodeEnd::Near { .. }
        | NodeEnd::Failed(Cause::Rows { .. })
        | NodeEnd::Stopped(_) => refused,
        NodeEnd::Failed(Cause::Wide(_)) | NodeEnd::Failed(Cause::Spent { .. }) => {
            refused.saturating_add(1)
        }
    }
}
