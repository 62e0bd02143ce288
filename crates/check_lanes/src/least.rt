//! The least sum of two lists, lane by lane: `least_sum`.

ghost use Rattle.std.specs.Prelude.{◌≡◌, ℕ, pos, ◌+◌, ◌-◌, ◌%◌, ◌<◌, ◌≤◌, length, slice_index_or, IfSome, IfNone, IsTrue, IsFalse};
ghost use Rattle.check_lanes.specs.LeastSum.{sum_at, AreSmall, IsLeastSum};
ghost use Rattle.check_lanes.specs.Running.{IsAhead, AreRunning};

use std::simd::prelude::*;

/// How many places one step over lanes takes.
const LANES: usize = 8;

/// Below this length the plain loop is at least as quick.
const SHORT: usize = 64;

/// A sum with its place.
#[derive(Clone, Copy)]
struct Found {
    sum: i64,
    place: usize,
}

/// The least sum of each lane so far, and where the step begins that has it.
#[derive(Clone, Copy)]
struct Running {
    sums: i64x8,
    starts: usizex8,
}

/// The sum at one place.
fn sum_of(x: &[i64], y: &[i64], place: usize) -> i64
    requires x { place < length x.now }
    requires y { place < length y.now }
    requires small_x { AreSmall x.now }
    requires small_y { AreSmall y.now }
    ensures { result ≡ sum_at x.now y.now place }
{
    x[place] + y[place]
}

/// The sums at the eight places from `at` on.
fn lane_sums(x: &[i64], y: &[i64], at: usize) -> i64x8
    requires x { at + 8 ≤ length x.now }
    requires y { at + 8 ≤ length y.now }
    requires small_x { AreSmall x.now }
    requires small_y { AreSmall y.now }
    ensures lanes { length result ≡ 8 }
    ensures sums { (i : ℕ) → i < 8 → slice_index_or result i (pos 0) ≡ sum_at x.now y.now (at + i) }
{
    i64x8::from_slice(&x[at..]) + i64x8::from_slice(&y[at..])
}

/// The first step: each lane has the sum of one place.
fn first_step(x: &[i64], y: &[i64]) -> Running
    requires x { 8 ≤ length x.now }
    requires y { 8 ≤ length y.now }
    requires small_x { AreSmall x.now }
    requires small_y { AreSmall y.now }
    ensures { AreRunning x.now y.now 8 result.sums result.starts }
{
    let sums = lane_sums(x, y, 0);
    Running {
        sums,
        starts: usizex8::splat(0),
    }
}

/// One step more: a lane takes its new sum where that is less.
fn next_step(x: &[i64], y: &[i64], at: usize, running: Running) -> Running
    requires x { at + 8 ≤ length x.now }
    requires y { at + 8 ≤ length y.now }
    requires small_x { AreSmall x.now }
    requires small_y { AreSmall y.now }
    requires whole { at % 8 ≡ 0 }
    requires running { AreRunning x.now y.now at running.sums running.starts }
    ensures { AreRunning x.now y.now (at + 8) result.sums result.starts }
{
    let sums = lane_sums(x, y, at);
    let less = sums.simd_lt(running.sums);
    Running {
        sums: less.select(sums, running.sums),
        starts: less.select(usizex8::splat(at), running.starts),
    }
}

/// Whether the sum `a` comes before the sum `b`: it is less, or it is equal and stands at an earlier place.
fn is_ahead(a: Found, b: Found) -> bool
    ensures yes { IsTrue result → IsAhead a.sum a.place b.sum b.place }
    ensures no { IsFalse result → IsAhead b.sum b.place a.sum a.place }
{
    a.sum < b.sum || (a.sum == b.sum && a.place < b.place)
}

/// The least sum of all lanes, and its first place.
fn least_lane(x: &[i64], y: &[i64], at: usize, running: Running) -> Found
    requires running { AreRunning x.now y.now at running.sums running.starts }
    ensures { IsLeastSum x.now y.now at result.sum result.place }
{
    let sums = running.sums.to_array();
    let starts = running.starts.to_array();
    let mut best = Found {
        sum: sums[0],
        place: starts[0],
    };
    for lane in 1..LANES {
        let next = Found {
            sum: sums[lane],
            place: starts[lane] + lane,
        };
        if is_ahead(next, best) {
            best = next;
        }
    }
    best
}

/// The least sum, where that of the places before `at` is `found`.
fn least_from(x: &[i64], y: &[i64], at: usize, found: Found) -> Found
    requires lengths { length x.now ≡ length y.now }
    requires small_x { AreSmall x.now }
    requires small_y { AreSmall y.now }
    requires within { at ≤ length x.now }
    requires found { IsLeastSum x.now y.now at found.sum found.place }
    ensures { IsLeastSum x.now y.now (length x.now) result.sum result.place }
{
    let mut best = found;
    for place in at..x.len() {
        let sum = sum_of(x, y, place);
        if sum < best.sum {
            best = Found { sum, place };
        }
    }
    best
}

/// The least sum, eight places at a time, and the rest one by one.
fn least_by_lanes(x: &[i64], y: &[i64]) -> Found
    requires lengths { length x.now ≡ length y.now }
    requires small_x { AreSmall x.now }
    requires small_y { AreSmall y.now }
    requires enough { 8 ≤ length x.now }
    ensures { IsLeastSum x.now y.now (length x.now) result.sum result.place }
{
    let mut running = first_step(x, y);
    let mut at = LANES;
    'steps: while x.len() - at >= LANES {
        running = next_step(x, y, at, running);
        at += LANES;
    }
    let found = least_lane(x, y, at, running);
    least_from(x, y, at, found)
}

/// The least sum, place by place.
fn least_by_places(x: &[i64], y: &[i64]) -> Found
    requires lengths { length x.now ≡ length y.now }
    requires small_x { AreSmall x.now }
    requires small_y { AreSmall y.now }
    requires some { 0 < length x.now }
    ensures { IsLeastSum x.now y.now (length x.now) result.sum result.place }
{
    let sum = sum_of(x, y, 0);
    least_from(x, y, 1, Found { sum, place: 0 })
}

/// The least `x[j] + y[j]`, and the first `j` that has it; None where both lists are empty.
///
/// The lists are equally long, and each entry is at most 2^61 in size, so that no sum leaves 64 bits.
pub fn least_sum(x: &[i64], y: &[i64]) -> Option<(i64, usize)>
    requires lengths { length x.now ≡ length y.now }
    requires small_x { AreSmall x.now }
    requires small_y { AreSmall y.now }
    ensures some { IfSome result (λ found. IsLeastSum x.now y.now (length x.now) found.0 found.1) }
    ensures none { IfNone result (length x.now ≡ 0) }
{
    if x.is_empty() {
        return None;
    }
    let found = if x.len() < SHORT {
        least_by_places(x, y)
    } else {
        least_by_lanes(x, y)
    };
    Some((found.sum, found.place))
}
