//! What the sums say: whole counts, an arc between two, or neither.

ghost use Rattle.std.specs.Prelude.{◌≡◌, ◌≤◌, ◌/◌, IfOk, IfSome, MatchOption, length};
ghost use Rattle.search_arc_weights.specs.Choices.{margin_of, is_fraction, nearest, CountAsWhole, IsPart, HaveFew, FitCounts};
ghost use Rattle.search_arc_weights.specs.Choices.{AreRounded, IsLeft, IsFitted, IsChoice, HasNoChoice, IsAnswer};

use crate::weighed::Weighed;
use model_rosters::{List, Memory};
use search_arc_counts::ArcBox;
use search_masters::Solution;
use std::alloc::Global;
use tree_graph::Graph;

// Sums of near weights count as whole within this part of 1.
const NEAR_PARTS: u128 = 4096;

// An arc whose sum is a fraction.
#[derive(Clone, Copy, Drop)]
struct Candidate {
    arc: u32,
    // Its sum rounded down.
    b: u32,
    // How far the sum is from a whole number.
    apart: u128,
    // The arc's length.
    len: u8,
}

// Says whether the first arc is taken rather than the second.
fn is_better(first: &Candidate, second: &Candidate) -> bool {
    (first.b, first.apart, first.len) > (second.b, second.apart, second.len)
}

// Returns how far from a whole number a sum still counts as whole, in units of 1 / d.
fn margin(solution: Solution, d: u128) -> u128
    ensures { result ≡ margin_of solution d }
{
    match solution {
        Solution::Exact => 0,
        Solution::Near => d / NEAR_PARTS,
    }
}

// Says whether a sum is farther than the margin from each whole number.
fn is_part(sum: u128, d: u128, margin: u128) -> bool
    requires d { 1 ≤ d }
    ensures { result ≡ is_fraction d margin sum }
{
    let rest = sum % d;
    margin < rest && margin < d - rest
}

// Returns the whole number that is nearest to a sum which counts as whole.
fn rounded(sum: u128, d: u128, margin: u128) -> u32
    requires d { 1 ≤ d }
    requires few { sum / d ≤ 64 }
    ensures { result ≡ nearest d margin sum }
{
    let floor = (sum / d) as u32;
    if margin < sum % d { floor + 1 } else { floor }
}

// Returns the place of the first sum that does not count as whole.
fn first_part(sums: &[u128], d: u128, margin: u128) -> Option<usize>
    requires { 1 ≤ d }
    ensures { MatchOption result (CountAsWhole d margin sums.now) (IsPart d margin sums.now) }
{
    sums.iter().position(|sum| is_part(*sum, d, margin))
}

// Returns the sums as whole numbers.
fn rounded_counts(alloc: Global, sums: &[u128], d: u128, margin: u128) -> Result<List<u32>, Memory>
    requires d { 1 ≤ d }
    requires few { HaveFew d sums.now }
    ensures { IfOk result (AreRounded d margin sums.now) }
{
    let mut counts = List::new(alloc);
    for sum in sums {
        counts.push(rounded(*sum, d, margin))?;
    }
    Ok(counts)
}

// Returns an arc with its sum, and none where the sum counts as whole or the least count is above it.
fn fitted(arc: u32, len: u8, low: u32, sum: u128, d: u128, margin: u128) -> Option<Candidate>
    requires d { 1 ≤ d }
    requires few { sum / d ≤ 64 }
    ensures { MatchOption result (IsLeft d margin low sum) (IsFitted arc d margin low sum) }
{
    let b = (sum / d) as u32;
    if !is_part(sum, d, margin) || b < low {
        return None;
    }
    let rest = sum % d;
    Some(Candidate {
        arc,
        b,
        apart: rest.min(d - rest),
        len,
    })
}

// Returns an arc that is preferred and its sum rounded down, where it is one to choose.
fn choose_preferred(
    arc_box: &ArcBox,
    preferred: Option<u32>,
    sums: &[u128],
    d: u128,
    margin: u128,
) -> Option<(u32, u32)>
    requires { FitCounts arc_box.now.bounds d sums.now }
    ensures { IfSome result (IsChoice arc_box.now.bounds d margin sums.now) }
{
    let arc = preferred?;
    if arc as usize >= sums.len() {
        return None;
    }
    let found = fitted(arc, 0, arc_box.low(arc), sums[arc as usize], d, margin)?;
    Some((found.arc, found.b))
}

// Returns the arc to split on and its sum rounded down: the preferred one where it is one to choose.
fn choose(
    graph: &Graph,
    arc_box: &ArcBox,
    preferred: Option<u32>,
    sums: &[u128],
    d: u128,
    margin: u128,
) -> Option<(u32, u32)>
    requires arcs { length sums.now ≡ length graph.now.arcs }
    requires fit { FitCounts arc_box.now.bounds d sums.now }
    ensures { MatchOption result (HasNoChoice arc_box.now.bounds d margin sums.now)
        (IsChoice arc_box.now.bounds d margin sums.now) }
{
    if let Some(choice) = choose_preferred(arc_box, preferred, sums, d, margin) {
        return Some(choice);
    }
    let arcs = graph.arcs();
    let mut best: Option<Candidate> = None;
    for (place, sum) in sums.iter().enumerate() {
        let arc = place as u32;
        let Some(next) = fitted(arc, arcs[place].len, arc_box.low(arc), *sum, d, margin) else {
            continue;
        };
        best = match best {
            Some(other) if !is_better(&next, &other) => Some(other),
            _ => Some(next),
        };
    }
    let best = best?;
    Some((best.arc, best.b))
}

/// Says what the sums of such a solution's weights tell.
///
/// # Errors
///
/// `Memory` where memory runs out; there is no answer then.
pub fn conclude(
    alloc: Global,
    graph: &Graph,
    arc_box: &ArcBox,
    preferred: Option<u32>,
    sums: &[u128],
    d: u128,
    solution: Solution,
) -> Result<Weighed, Memory>
    requires arcs { length sums.now ≡ length graph.now.arcs }
    requires fit { FitCounts arc_box.now.bounds d sums.now }
    ensures { IfOk result (IsAnswer arc_box.now.bounds d (margin_of solution d) sums.now) }
{
    let margin = margin(solution, d);
    if first_part(sums, d, margin).is_none() {
        let counts = rounded_counts(alloc, sums, d, margin)?;
        return Ok(Weighed::Whole(counts));
    }
    match choose(graph, arc_box, preferred, sums, d, margin) {
        Some((arc, b)) => Ok(Weighed::Between { arc, b }),
        None => Ok(Weighed::Other),
    }
}
