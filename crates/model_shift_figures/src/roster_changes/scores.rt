//! What choices score.

ghost use Rattle.std.specs.Prelude.{◌≡◌, ◌-◌, ◌*◌, ◌^◌, ◌<◌, ◌≤◌, Some, IfSome, length};
ghost use Rattle.model_shift_figures.specs.roster_changes.Matchings.{choice};
ghost use Rattle.model_shift_figures.specs.roster_changes.Scores.{weight, unit, lead, row_score, score};
ghost use Rattle.model_shift_figures.specs.roster_changes.Changes.{differing_periods};
ghost use Rattle.model_shift_figures.specs.roster_changes.Stages.{Fits};

use crate::roster_changes::pairs::{choice_at, shift_of};
use crate::roster_changes::words::differing_periods;
use model_rosters::Shift;

// What a pair counts that differs in so many periods.
#[tactic(auto, unfolding(crate::specs::roster_changes::Scores::weight))]
fn weight(differing: u8) -> u64
    ensures { result ≡ weight differing }
{
    let periods = 129 * u64::from(differing);
    if differing == 0 { periods } else { periods + 1 }
}

// What a pair saves: two shifts that are left over count two units.
fn pair_gain(periods: u8, before: &Shift, after: &Shift) -> u64
    ensures value { result ≡ 2 * unit periods - weight (differing_periods periods before.now after.now) }
    ensures within { result ≤ 65792 }
{
    let most = 2 * (129 * u64::from(periods) + 1);
    most.saturating_sub(weight(differing_periods(periods, before, after)))
}

// How far before the end a choice stands, where the new shift is the one whose turn it is.
#[tactic(auto, unfolding(crate::specs::roster_changes::Scores::lead, crate::specs::roster_changes::Matchings::rank))]
fn lead(row: usize, at: usize, place: u8) -> u64
    ensures value { result ≡ lead row at (Some place) }
    ensures within { result ≤ 64 }
{
    if at == row {
        u64::from(64u8.saturating_sub(place))
    } else {
        0
    }
}

// What a pair counts: savings before all, and then its place for the new shift whose turn it is.
#[tactic(auto, unfolding(crate::specs::roster_changes::Scores::row_score, crate::specs::roster_changes::Scores::gain))]
pub fn pair_score(
    periods: u8,
    old: &[Shift],
    new: &[Shift],
    row: usize,
    at: usize,
    place: u8,
) -> u64
    requires at_in { at < length new.now }
    requires place_in { place < length old.now }
    ensures value { result ≡ row_score periods old.now new.now row at (Some place) }
    ensures within { result < 2 ^ 23 }
{
    let gain = pair_gain(
        periods,
        shift_of(old, usize::from(place)),
        shift_of(new, at),
    );
    65 * gain + lead(row, at, place)
}

// What the choice of a new shift counts.
#[tactic(auto, using(crate::proofs::roster_changes::ScoreLemmas::no_score))]
fn choice_score(
    periods: u8,
    old: &[Shift],
    new: &[Shift],
    row: usize,
    at: usize,
    chosen: Option<u8>,
) -> u64
    requires at_in { at < length new.now }
    requires place_in { IfSome chosen (λ place. place < length old.now) }
    ensures value { result ≡ row_score periods old.now new.now row at chosen }
    ensures within { result < 2 ^ 23 }
{
    match chosen {
        Some(place) => pair_score(periods, old, new, row, at, place),
        None => 0,
    }
}

// What all choices count, where the turn is at a row.
#[tactic(auto, using(crate::proofs::roster_changes::TotalLemmas::totals), unfolding(crate::specs::roster_changes::Scores::score))]
pub fn score(periods: u8, old: &[Shift], new: &[Shift], row: usize, matching: &[Option<u8>]) -> u64
    requires few { length new.now ≤ 64 }
    requires fits { Fits old.now new.now (length new.now) (choice matching.now) }
    ensures value { result ≡ score periods old.now new.now row (choice matching.now) }
    ensures within { result < 2 ^ 32 }
{
    let mut sum = 0;
    for at in 0..new.len() {
        sum += choice_score(periods, old, new, row, at, choice_at(matching, at));
    }
    sum
}
