//! What both halves of a split gain.

use crate::bench::ProbeBench;
use crate::candidates::Candidate;
use lp_float_programs::LastRow;
use model_rosters::Memory;
use search_watch::Watch;
use tree_graph::Graph;
use tree_pool::Pool;

/// What an artificial column costs.
const ARTIFICIAL: i64 = 131_072;

/// What is added to each gain, 1/16, so that a split whose one half gains nothing counts too.
const LEAST: i128 = 268_435_456;

/// What the halves of a split gain.
#[derive(Clone, Copy, Drop)]
pub(crate) struct Halves {
    pub low: i128,
    /// What the half with more gains, where it was tried.
    pub high: Option<i128>,
}

impl Halves {
    /// Returns the product of what both halves gain; 0 where one was not tried.
    pub fn score(&self) -> i128 {
        match self.high {
            Some(high) => product(self.low, high),
            None => 0,
        }
    }

    /// Returns what the better half gains.
    pub fn most(&self) -> i128 {
        match self.high {
            Some(high) => self.low.max(high),
            None => self.low,
        }
    }
}

/// Returns the product of what both halves of a split gain.
pub(crate) fn product(low: i128, high: i128) -> i128 {
    low.saturating_add(LEAST)
        .saturating_mul(high.saturating_add(LEAST))
}

/// Returns the row of the half with at most this weight of the arc's trees.
fn low_row(floor: i64) -> LastRow {
    LastRow {
        right: floor,
        missing: 0,
        beyond: None,
    }
}

/// Returns the row of the half with more.
fn high_row(floor: i64) -> LastRow {
    LastRow {
        right: floor.saturating_add(1),
        missing: ARTIFICIAL,
        beyond: Some(0),
    }
}

/// Tries both halves of a split by so many steps each, the second one where the product of what they gain can
/// be above a score.
///
/// # Errors
///
/// `Memory` where memory runs out; there is no answer then.
pub(crate) fn halves_of<W: Watch>(
    graph: &Graph,
    pool: &Pool,
    bench: &mut ProbeBench,
    candidate: &Candidate,
    steps: u32,
    above: i128,
    watch: &W,
) -> Result<Halves, Memory> {
    bench.note(graph, pool, candidate.arc);
    let low = bench.gain(low_row(candidate.floor), steps, watch)?;
    if product(low, bench.most()) <= above {
        return Ok(Halves { low, high: None });
    }
    let high = bench.gain(high_row(candidate.floor), steps, watch)?;
    Ok(Halves {
        low,
        high: Some(high),
    })
}
