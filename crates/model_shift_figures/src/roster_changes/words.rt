//! In which periods two shifts differ.

ghost use Rattle.std.specs.Prelude.{◌≡◌, ◌≢◌, ◌≤◌, ◌↔◌, slice_index, IsTrue};
ghost use Rattle.model_shift_figures.specs.roster_changes.Changes.{difference, differing_periods};

use model_rosters::Shift;

// The letter of a period, or 0 past the end of the word.
fn letter_at(word: &[u8], period: u8) -> u8
    ensures { result ≡ slice_index word.now period }
{
    word.get(usize::from(period)).copied().unwrap_or(0)
}

// 1 where the letters of a period differ, which counts from 0.
#[tactic(auto, unfolding(crate::specs::roster_changes::Changes::difference))]
fn difference(before: &Shift, after: &Shift, period: u8) -> u8
    ensures value { result ≡ difference before.now after.now period }
    ensures within { result ≤ 1 }
{
    if letter_at(before.word.as_slice(), period) == letter_at(after.word.as_slice(), period) {
        0
    } else {
        1
    }
}

/// Returns in how many of the day's periods two shifts have different letters: at most that many.
#[tactic(auto, using(crate::proofs::roster_changes::TotalLemmas::totals), unfolding(crate::specs::roster_changes::Changes::differing_periods))]
pub fn differing_periods(periods: u8, before: &Shift, after: &Shift) -> u8
    ensures value { result ≡ differing_periods periods before.now after.now }
    ensures within { result ≤ periods }
{
    let mut count = 0;
    for period in 0..periods {
        count += difference(before, after, period);
    }
    count
}

/// Returns whether two shifts have different letters in a period, which counts from 0.
pub fn is_different(before: &Shift, after: &Shift, period: u8) -> bool
    ensures { IsTrue result ↔ (slice_index before.now.word period ≢ slice_index after.now.word period) }
{
    letter_at(before.word.as_slice(), period) != letter_at(after.word.as_slice(), period)
}
