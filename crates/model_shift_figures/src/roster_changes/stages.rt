//! The choices, one after another.

ghost use Rattle.std.specs.Prelude.{◌≡◌, ◌<◌, ◌≤◌, IfOk, length};
ghost use Rattle.model_shift_figures.specs.roster_changes.Matchings.{choice};
ghost use Rattle.model_shift_figures.specs.roster_changes.Stages.{Fits, IsBest, IsNext};
ghost use Rattle.model_shift_figures.specs.roster_changes.Changes.{IsLeastMatching};

use crate::roster_changes::assignment::{Assignment, assign};
use crate::roster_changes::pairs::choice_at;
use crate::roster_changes::prices::is_shown;
use crate::roster_changes::search::best_of;
use model_rosters::{List, Memory, Shift};
use std::alloc::Global;

// The best choices that begin with the fixed ones: what an assignment says where its prices show it, else
// what a search through all says.
fn best_from(
    alloc: Global,
    periods: u8,
    old: &[Shift],
    new: &[Shift],
    fixed: &[Option<u8>],
) -> Result<Vec<Option<u8>>, Memory>
    requires few_old { length old.now ≤ 64 }
    requires few_new { length new.now ≤ 64 }
    requires within { length fixed.now ≤ length new.now }
    requires fits { Fits old.now new.now (length fixed.now) (choice fixed.now) }
    ensures { IfOk result (λ best. IsBest periods old.now new.now (length fixed.now) fixed.now best.items) }
{
    let Assignment { matching, prices } = assign(alloc, periods, old, new, fixed)?;
    if is_shown(periods, old, new, fixed, matching.as_slice(), &prices) {
        return Ok(matching);
    }
    best_of(alloc, periods, old, new, fixed.len(), fixed)
}

// The next of the first choices.
fn next_choice(
    alloc: Global,
    periods: u8,
    old: &[Shift],
    new: &[Shift],
    fixed: &[Option<u8>],
) -> Result<Option<u8>, Memory>
    requires few_old { length old.now ≤ 64 }
    requires few_new { length new.now ≤ 64 }
    requires turn { length fixed.now < length new.now }
    requires fits { Fits old.now new.now (length fixed.now) (choice fixed.now) }
    ensures { IfOk result (λ chosen. IsNext periods old.now new.now fixed.now chosen) }
{
    let best = best_from(alloc, periods, old, new, fixed)?;
    Ok(choice_at(best.as_slice(), fixed.len()))
}

/// Returns for each new shift the place of the old one that it is matched with, or `None`: within each group
/// one to one, and the smaller side wholly. Of all such matchings it is the one with the fewest differing
/// periods, of these the one with the fewest differing shifts, and of these the first in the order of words,
/// where `None` stands behind all places. Both rosters are of at most 64 shifts, in any order of their
/// groups.
///
/// # Errors
///
/// `Memory` where memory runs out.
pub fn changes_of(
    alloc: Global,
    periods: u8,
    old: &[Shift],
    new: &[Shift],
) -> Result<List<Option<u8>>, Memory>
    requires few_old { length old.now ≤ 64 }
    requires few_new { length new.now ≤ 64 }
    ensures { IfOk result (λ matching. IsLeastMatching periods old.now new.now matching) }
{
    let mut fixed = List::new(alloc);
    'fixing: while fixed.len() < new.len() {
        let chosen = next_choice(alloc, periods, old, new, fixed.as_slice())?;
        fixed.push(chosen)?;
    }
    Ok(fixed)
}
