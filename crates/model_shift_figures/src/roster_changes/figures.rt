//! How many periods and shifts differ under a matching.

ghost use Rattle.std.specs.Prelude.{◌≡◌, ◌<◌, ◌≤◌, ◌↔◌, IfSome, IsTrue, length};
ghost use Rattle.model_shift_figures.specs.roster_changes.Totals.{total};
ghost use Rattle.model_shift_figures.specs.roster_changes.Matchings.{shift_at, choice, IsFree, IsMatching};
ghost use Rattle.model_shift_figures.specs.roster_changes.Changes.{periods_of, shifts_of, pairs_of, left_over, changed_periods, changed_shifts};

use crate::roster_changes::pairs::{choice_at, is_free, shift_of};
use crate::roster_changes::words::differing_periods;
use model_rosters::Shift;

// In how many periods a new shift differs from its old one: without one in all.
#[tactic(auto, unfolding(crate::specs::roster_changes::Changes::periods_of))]
fn periods_of(periods: u8, old: &[Shift], shift: &Shift, chosen: Option<u8>) -> u8
    requires { IfSome chosen (λ place. place < length old.now) }
    ensures { result ≡ periods_of periods old.now shift.now chosen }
{
    match chosen {
        Some(place) => differing_periods(periods, shift_of(old, usize::from(place)), shift),
        None => periods,
    }
}

// 1 where a new shift differs from its old one at all, or has none.
#[tactic(auto, unfolding(crate::specs::roster_changes::Changes::shifts_of))]
fn shifts_of(periods: u8, old: &[Shift], shift: &Shift, chosen: Option<u8>) -> u8
    requires { IfSome chosen (λ place. place < length old.now) }
    ensures value { result ≡ shifts_of periods old.now shift.now chosen }
    ensures within { result ≤ 1 }
{
    match chosen {
        Some(place) => {
            if differing_periods(periods, shift_of(old, usize::from(place)), shift) == 0 {
                0
            } else {
                1
            }
        }
        None => 1,
    }
}

// 1 where a new shift has an old one.
#[tactic(auto, unfolding(crate::specs::roster_changes::Changes::pairs_of))]
fn pairs_of(chosen: Option<u8>) -> usize
    ensures value { result ≡ pairs_of chosen }
    ensures within { result ≤ 1 }
{
    match chosen {
        Some(_) => 1,
        None => 0,
    }
}

// How many old shifts no new shift has.
#[tactic(auto, using(crate::proofs::roster_changes::TotalLemmas::totals), unfolding(crate::specs::roster_changes::Changes::left_over))]
fn left_over(old: &[Shift], new: &[Shift], matching: &[Option<u8>]) -> usize
    ensures value { result ≡ left_over old.now new.now (choice matching.now) }
    ensures within { result ≤ length old.now }
{
    let mut pairs = 0;
    for at in 0..new.len() {
        pairs += pairs_of(choice_at(matching, at));
    }
    old.len().saturating_sub(pairs)
}

// In how many periods the new shifts differ.
#[tactic(auto, using(crate::proofs::roster_changes::TotalLemmas::totals))]
fn new_periods(periods: u8, old: &[Shift], new: &[Shift], matching: &[Option<u8>]) -> u32
    requires few_new { length new.now ≤ 64 }
    requires is_matching { IsMatching old.now new.now matching.now }
    ensures value { result ≡ total (length new.now)
        (λ at. periods_of periods old.now (shift_at new.now at) (choice matching.now at)) }
    ensures within { result ≤ 65536 }
{
    let mut sum = 0;
    for at in 0..new.len() {
        let chosen = choice_at(matching, at);
        sum += u32::from(periods_of(periods, old, shift_of(new, at), chosen));
    }
    sum
}

// How many of the new shifts differ.
#[tactic(auto, using(crate::proofs::roster_changes::TotalLemmas::totals))]
fn new_shifts(periods: u8, old: &[Shift], new: &[Shift], matching: &[Option<u8>]) -> u32
    requires few_new { length new.now ≤ 64 }
    requires is_matching { IsMatching old.now new.now matching.now }
    ensures value { result ≡ total (length new.now)
        (λ at. shifts_of periods old.now (shift_at new.now at) (choice matching.now at)) }
    ensures within { result ≤ 64 }
{
    let mut sum = 0;
    for at in 0..new.len() {
        let chosen = choice_at(matching, at);
        sum += u32::from(shifts_of(periods, old, shift_of(new, at), chosen));
    }
    sum
}

/// Returns in how many periods all shifts differ under a matching: those of the pairs, and all of the day for
/// each shift that is left over, old or new. Both rosters are of at most 64 shifts.
#[tactic(auto, unfolding(crate::specs::roster_changes::Changes::changed_periods))]
pub fn changed_periods(periods: u8, old: &[Shift], new: &[Shift], matching: &[Option<u8>]) -> u32
    requires few_old { length old.now ≤ 64 }
    requires few_new { length new.now ≤ 64 }
    requires is_matching { IsMatching old.now new.now matching.now }
    ensures { result ≡ changed_periods periods old.now new.now (choice matching.now) }
{
    let left = left_over(old, new, matching) as u32;
    new_periods(periods, old, new, matching) + u32::from(periods) * left
}

/// Returns how many shifts differ under a matching: pairs that differ at all, and shifts that are left over,
/// old or new. Both rosters are of at most 64 shifts.
#[tactic(auto, unfolding(crate::specs::roster_changes::Changes::changed_shifts))]
pub fn changed_shifts(periods: u8, old: &[Shift], new: &[Shift], matching: &[Option<u8>]) -> u32
    requires few_old { length old.now ≤ 64 }
    requires few_new { length new.now ≤ 64 }
    requires is_matching { IsMatching old.now new.now matching.now }
    ensures { result ≡ changed_shifts periods old.now new.now (choice matching.now) }
{
    let left = left_over(old, new, matching) as u32;
    new_shifts(periods, old, new, matching) + left
}

/// Returns whether no new shift has the old one at a place.
pub fn is_left_over(matching: &[Option<u8>], place: u8) -> bool
    ensures { IsTrue result ↔ IsFree (length matching.now) (choice matching.now) place }
{
    is_free(matching, matching.len(), place)
}
