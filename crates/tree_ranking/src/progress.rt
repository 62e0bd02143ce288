//! The candidates that wait.

ghost use Rattle.std.specs.Prelude.{◌≡◌, ◌≤◌, ◌<◌, ◌<ℤ◌, [], ◌∷◌, OnOk, length, take, drop};
ghost use Rattle.std.specs.Bool.{OnTrue};
ghost use Rattle.model_rosters.specs.Folds.{Each};
ghost use Rattle.tree_ranking.specs.declared.candidate.Candidate.{Candidate as Beginning};
ghost use Rattle.tree_ranking.specs.Candidates.{Comes, IsAside, AreOrdered};
ghost use Rattle.tree_ranking.specs.Progresses.{CanTake, IsOffered, IsRoomMade};

use crate::candidate::{Candidate, Child};
use crate::order::{comes_before, is_below};
use model_rosters::Memory;
use std::collections::VecDeque;

// Returns where a candidate is to stand among others in their order.
fn place_of(waiting: &VecDeque<Candidate>, candidate: &Candidate) -> usize
    requires aside { IsAside candidate.now.steps waiting.now.items }
    requires ordered { AreOrdered waiting.now.items }
    ensures within { result ≤ length waiting.now.items }
    ensures before { Each (λ (d : Beginning). Comes d candidate.now) (take result waiting.now.items) }
    ensures after { Each (Comes candidate.now) (drop result waiting.now.items) }
{
    let mut low = 0usize;
    let mut high = waiting.len();
    while low < high {
        let middle = low + (high - low) / 2;
        if comes_before(candidate, &waiting[middle]) {
            high = middle;
        } else {
            low = middle + 1;
        }
    }
    low
}

/// Says whether there are as many candidates as there is room for, each of a smaller sum than a child.
pub fn is_beyond(waiting: &VecDeque<Candidate>, room: usize, child: &Child) -> bool
    requires ordered { AreOrdered waiting.now.items }
    ensures full { OnTrue result (length waiting.now.items ≡ room) }
    ensures smaller { OnTrue result (Each (λ (d : Beginning). d.sum <ℤ child.now.sum) waiting.now.items) }
{
    if waiting.len() != room {
        return false;
    }
    match waiting.back() {
        Some(last) => is_below(last, child),
        None => true,
    }
}

// Drops the last candidate where there are as many as there is room for.
fn make_room(waiting: &mut VecDeque<Candidate>, room: usize)
    requires few { length waiting.old.items ≤ room }
    requires some { 0 < room }
    ensures { IsRoomMade room waiting.old.items waiting.new.items }
{
    if waiting.len() == room {
        let _ = waiting.pop_back();
    }
}

/// Puts a candidate among others in their order. Where there are so many as there is room for, the
/// last of all is dropped.
///
/// # Errors
///
/// `Memory` where memory runs out; nothing is said of those that wait then.
pub fn offer(
    waiting: &mut VecDeque<Candidate>,
    room: usize,
    candidate: Candidate,
) -> Result<(), Memory>
    requires { CanTake room waiting.old.items (candidate ∷ []) }
    ensures { OnOk result (IsOffered room candidate waiting.old.items waiting.new.items) }
{
    let place = place_of(waiting, &candidate);
    if place == room {
        return Ok(());
    }
    make_room(waiting, room);
    waiting.insert(place, candidate)?;
    Ok(())
}
