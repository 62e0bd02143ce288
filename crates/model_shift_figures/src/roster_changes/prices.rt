//! Prices that show that choices score the most.

ghost use Rattle.std.specs.Prelude.{◌≡◌, ◌+◌, ◌<◌, ◌≤◌, Some, IfSome, length, slice_index, IsTrue};
ghost use Rattle.model_shift_figures.specs.roster_changes.Totals.{total};
ghost use Rattle.model_shift_figures.specs.roster_changes.Scores.{row_score};
ghost use Rattle.model_shift_figures.specs.roster_changes.Stages.{IsPriced, IsRowPriced, ArePrices, IsBest};

use crate::roster_changes::pairs::{is_candidate, is_open};
use crate::roster_changes::scores::{pair_score, score};
use model_rosters::Shift;

/// Prices of the new shifts and of the old ones, which show that choices score the most.
#[derive(Debug, Drop)]
pub struct Prices {
    /// The price of each new shift, in scores.
    pub rows: Vec<u64>,
    /// The price of each old shift, in scores.
    pub places: Vec<u64>,
}

// The price at a place, or 0 past the end.
fn price_at(prices: &[u64], place: usize) -> u64
    ensures { result ≡ slice_index prices.now place }
{
    prices.get(place).copied().unwrap_or(0)
}

// Whether the pair scores no more than both prices.
fn is_paid(score: u64, at: usize, place: u8, prices: &Prices) -> bool
    ensures { IsTrue result
        → score ≤ slice_index prices.now.rows.items at + slice_index prices.now.places.items place }
{
    let row = price_at(prices.rows.as_slice(), at);
    score.saturating_sub(row) <= price_at(prices.places.as_slice(), usize::from(place))
}

// Whether the pair scores no more than both prices, or may not be had.
fn is_priced(
    periods: u8,
    old: &[Shift],
    new: &[Shift],
    fixed: &[Option<u8>],
    at: usize,
    place: u8,
    prices: &Prices,
) -> bool
    requires { at < length new.now }
    ensures { IsTrue result → IsPriced periods old.now new.now fixed.now
        (slice_index prices.now.rows.items) (slice_index prices.now.places.items) at place }
{
    if !is_open(old, new, fixed, at, place) {
        return true;
    }
    is_paid(
        pair_score(periods, old, new, fixed.len(), at, place),
        at,
        place,
        prices,
    )
}

// Whether no pair of the new shift that may be had scores more than its prices.
fn is_row_priced(
    periods: u8,
    old: &[Shift],
    new: &[Shift],
    fixed: &[Option<u8>],
    at: usize,
    prices: &Prices,
) -> bool
    requires at_in { at < length new.now }
    requires few { length old.now ≤ 64 }
    ensures { IsTrue result → IsRowPriced periods old.now new.now fixed.now
        (slice_index prices.now.rows.items) (slice_index prices.now.places.items) at }
{
    for place in 0..old.len() {
        if !is_priced(periods, old, new, fixed, at, place as u8, prices) {
            return false;
        }
    }
    true
}

// Whether no pair that may be had scores more than its prices.
fn are_prices(
    periods: u8,
    old: &[Shift],
    new: &[Shift],
    fixed: &[Option<u8>],
    prices: &Prices,
) -> bool
    requires few { length old.now ≤ 64 }
    ensures { IsTrue result → ArePrices periods old.now new.now fixed.now
        (slice_index prices.now.rows.items) (slice_index prices.now.places.items) }
{
    for at in 0..new.len() {
        if !is_row_priced(periods, old, new, fixed, at, prices) {
            return false;
        }
    }
    true
}

// What is left of an amount once the first prices are paid; `None` where they come to more.
#[tactic(auto, using(crate::proofs::roster_changes::TotalLemmas::totals))]
fn left_of(amount: u64, prices: &[u64], count: usize) -> Option<u64>
    ensures { IfSome result (λ left. total count (slice_index prices.now) + left ≡ amount) }
{
    let mut left = amount;
    for place in 0..count {
        let Some(rest) = left.checked_sub(price_at(prices, place)) else {
            return None;
        };
        left = rest;
    }
    Some(left)
}

// Whether an amount pays the first prices of both kinds.
fn pays(amount: u64, prices: &Prices, rows: usize, places: usize) -> bool
    ensures { IsTrue result → total rows (slice_index prices.now.rows.items)
        + total places (slice_index prices.now.places.items) ≤ amount }
{
    let Some(left) = left_of(amount, prices.rows.as_slice(), rows) else {
        return false;
    };
    left_of(left, prices.places.as_slice(), places).is_some()
}

// Whether the prices show that the choices score the most of all that begin with the fixed ones.
#[tactic(auto, using(crate::proofs::roster_changes::PriceLemmas::shown))]
pub fn is_shown(
    periods: u8,
    old: &[Shift],
    new: &[Shift],
    fixed: &[Option<u8>],
    matching: &[Option<u8>],
    prices: &Prices,
) -> bool
    requires few_old { length old.now ≤ 64 }
    requires few_new { length new.now ≤ 64 }
    ensures { IsTrue result → IsBest periods old.now new.now (length fixed.now) fixed.now matching.now }
{
    if matching.len() != new.len() || !is_candidate(old, new, fixed, matching) {
        return false;
    }
    if !are_prices(periods, old, new, fixed, prices) {
        return false;
    }
    let amount = score(periods, old, new, fixed.len(), matching);
    pays(amount, prices, new.len(), old.len())
}
