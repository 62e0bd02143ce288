//! What splits on letters gained.

use crate::candidates::{Candidate, NEAR, ONE};
use crate::halves::{Halves, product};
use crate::letters::is_letter;
use model_rosters::{Grammar, Memory};
use std::alloc::Global;
use tree_graph::Graph;

/// What one half of an arc's splits gained so far.
#[derive(Clone, Copy, Drop)]
struct Past {
    /// The sum of what it gained for each unit of weight, in units of 2^-32.
    gain: i128,
    /// How often it was tried.
    tries: i128,
}

/// What both halves of an arc's splits gained so far.
#[derive(Clone, Copy, Drop)]
struct Pasts {
    low: Past,
    high: Past,
}

const NEVER: Past = Past { gain: 0, tries: 0 };

/// What splits on the letters of a day gained so far in a search.
#[derive(Drop)]
pub struct Gains {
    /// By arcs; none for those that are no letters.
    arcs: Vec<Option<Pasts>>,
}

impl Past {
    /// Counts a gain over a part of the weight 1.
    fn add(&mut self, gain: i128, part: i64) {
        let by_unit = gain
            .saturating_mul(i128::from(ONE))
            .checked_div(i128::from(part.max(NEAR)));
        self.gain = self.gain.saturating_add(by_unit.unwrap_or(0));
        self.tries = self.tries.saturating_add(1);
    }

    /// Returns what a further try over a part of the weight 1 is likely to gain.
    fn likely(&self, part: i64) -> i128 {
        let mean = self.gain.checked_div(self.tries).unwrap_or(0);
        mean.saturating_mul(i128::from(part)) / i128::from(ONE)
    }
}

impl Gains {
    /// Returns that no split on a letter of the day was tried.
    ///
    /// # Errors
    ///
    /// `Memory` where memory runs out.
    pub fn new(alloc: Global, grammar: &Grammar, graph: &Graph) -> Result<Gains, Memory> {
        let mut arcs = Vec::new(alloc);
        for arc in graph.arcs() {
            let pasts = if is_letter(grammar, arc) {
                Some(Pasts {
                    low: NEVER,
                    high: NEVER,
                })
            } else {
                None
            };
            arcs.push(pasts)?;
        }
        Ok(Gains { arcs })
    }

    /// Returns the product of what both halves of a letter's split are likely to gain, and 0 where none was
    /// tried; `None` where the arc is no letter.
    pub(crate) fn promise(&self, candidate: &Candidate) -> Option<i128> {
        let Some(Some(pasts)) = self.arcs.get(candidate.arc as usize) else {
            return None;
        };
        if pasts.low.tries == 0 {
            return Some(0);
        }
        let low = pasts.low.likely(candidate.rest);
        let high = pasts.high.likely(ONE.saturating_sub(candidate.rest));
        Some(product(low, high))
    }

    /// Counts what the halves of a letter's split gained; one that was left out counts as no gain.
    pub(crate) fn count(&mut self, candidate: &Candidate, halves: &Halves) {
        let arcs = self.arcs.as_mut_slice();
        if let Some(Some(pasts)) = arcs.get_mut(candidate.arc as usize) {
            let high = halves.high.unwrap_or(0);
            pasts.low.add(halves.low, candidate.rest);
            pasts.high.add(high, ONE.saturating_sub(candidate.rest));
        }
    }
}
