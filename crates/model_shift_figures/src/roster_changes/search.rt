//! A search through all choices.

ghost use Rattle.std.specs.Prelude.{◌≡◌, ◌<◌, ◌≤◌, ◌⊎◌, ◌++◌, [], ◌∷◌, IfOk, IfSome, Some, length};
ghost use Rattle.model_shift_figures.specs.roster_changes.Matchings.{choice};
ghost use Rattle.model_shift_figures.specs.roster_changes.Scores.{score};
ghost use Rattle.model_shift_figures.specs.roster_changes.Stages.{Fits, MayFollow, IsBest};

use crate::roster_changes::pairs::may_follow;
use crate::roster_changes::scores::score;
use model_rosters::{Memory, Shift};
use std::alloc::Global;

// The choices once more.
fn copy_of(alloc: Global, fixed: &[Option<u8>]) -> Result<Vec<Option<u8>>, Memory>
    ensures { IfOk result (λ copy. copy.items ≡ fixed.now) }
{
    match Vec::from_slice(alloc, fixed) {
        Ok(copy) => Ok(copy),
        Err(_) => Err(Memory),
    }
}

// The choices with a further one.
fn longer(
    alloc: Global,
    fixed: &[Option<u8>],
    chosen: Option<u8>,
) -> Result<Vec<Option<u8>>, Memory>
    ensures { IfOk result (λ more. more.items ≡ fixed.now ++ chosen ∷ []) }
{
    let mut more = copy_of(alloc, fixed)?;
    match more.push(chosen) {
        Ok(()) => Ok(more),
        Err(_) => Err(Memory),
    }
}

// The choices of two that score more; of the same score the first.
fn better(
    periods: u8,
    old: &[Shift],
    new: &[Shift],
    row: usize,
    best: Vec<Option<u8>>,
    other: Vec<Option<u8>>,
) -> Vec<Option<u8>>
    requires few { length new.now ≤ 64 }
    requires best_fits { Fits old.now new.now (length new.now) (choice best.items) }
    requires other_fits { Fits old.now new.now (length new.now) (choice other.items) }
    ensures one { (result.items ≡ best.items) ⊎ (result.items ≡ other.items) }
    ensures no_less { score periods old.now new.now row (choice best.items)
        ≤ score periods old.now new.now row (choice result.items) }
    ensures no_less_than_other { score periods old.now new.now row (choice other.items)
        ≤ score periods old.now new.now row (choice result.items) }
{
    let first = score(periods, old, new, row, best.as_slice());
    let second = score(periods, old, new, row, other.as_slice());
    if first < second { other } else { best }
}

// The best choices that begin with the fixed ones and go on with a further one.
#[cycle(search)]
fn best_with(
    alloc: Global,
    periods: u8,
    old: &[Shift],
    new: &[Shift],
    row: usize,
    fixed: &[Option<u8>],
    chosen: Option<u8>,
) -> Result<Vec<Option<u8>>, Memory>
    requires few_old { length old.now ≤ 64 }
    requires few_new { length new.now ≤ 64 }
    requires turn { length fixed.now < length new.now }
    requires fits { Fits old.now new.now (length fixed.now) (choice fixed.now) }
    requires may_follow { MayFollow old.now new.now (choice fixed.now) (length fixed.now) chosen }
    ensures { IfOk result (λ best. IsBest periods old.now new.now row (fixed.now ++ chosen ∷ []) best.items) }
{
    let more = longer(alloc, fixed, chosen)?;
    best_of(alloc, periods, old, new, row, more.as_slice())
}

/// The best choices that begin with the fixed ones, found by trying all.
///
/// # Errors
///
/// `Memory` where memory runs out.
#[cycle(search)]
pub fn best_of(
    alloc: Global,
    periods: u8,
    old: &[Shift],
    new: &[Shift],
    row: usize,
    fixed: &[Option<u8>],
) -> Result<Vec<Option<u8>>, Memory>
    requires few_old { length old.now ≤ 64 }
    requires few_new { length new.now ≤ 64 }
    requires within { length fixed.now ≤ length new.now }
    requires fits { Fits old.now new.now (length fixed.now) (choice fixed.now) }
    ensures { IfOk result (λ best. IsBest periods old.now new.now row fixed.now best.items) }
{
    let turn = fixed.len();
    if turn == new.len() {
        let copy = copy_of(alloc, fixed)?;
        return Ok(copy);
    }
    let mut best = best_with(alloc, periods, old, new, row, fixed, None)?;
    for place in 0..old.len() {
        if !may_follow(old, new, fixed, turn, place as u8) {
            continue;
        }
        let other = best_with(alloc, periods, old, new, row, fixed, Some(place as u8))?;
        best = better(periods, old, new, row, best, other);
    }
    Ok(best)
}
