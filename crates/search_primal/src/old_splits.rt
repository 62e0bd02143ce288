//! The splits of an old certificate by the paths that they stand at.

use check_certificates::Node;
use model_rosters::{ArcKey, Cut, Memory, Side};
use search_masters::Pool;
use search_strong_branching::Share;
use std::alloc::Global;
use tree_graph::Graph;

/// The weight 1 of a share.
const ONE: i64 = 4_294_967_296;

/// A sum counts as whole within this.
const NEAR: i64 = 4_194_304;

/// A split of an old certificate.
#[derive(Clone, Copy, Drop)]
struct OldSplit {
    arc: ArcKey,
    b: u32,
    /// The place of the node of the upper half; that of the lower half comes next.
    high: usize,
}

/// The splits of an old certificate, by the places of its nodes. They are hints.
#[derive(Drop)]
pub struct OldSplits {
    nodes: Vec<Option<OldSplit>>,
}

/// Returns of each node where the nodes below it end, and last where all end.
fn ends_of(alloc: Global, nodes: &[Node]) -> Result<Vec<usize>, Memory> {
    let count = nodes.len();
    let mut ends = vec![in alloc; count; count.saturating_add(1)]?;
    for place in (0..count).rev() {
        let next = place.saturating_add(1);
        let end = match nodes.get(place) {
            Some(Node::Split { .. }) => {
                let high = end_at(ends.as_slice(), next);
                end_at(ends.as_slice(), high)
            }
            _ => next,
        };
        if let Some(own) = ends.get_mut(place) {
            *own = end;
        }
    }
    Ok(ends)
}

/// Returns the end at a place, and the place where there is none.
fn end_at(ends: &[usize], place: usize) -> usize {
    match ends.get(place) {
        Some(end) => *end,
        None => place,
    }
}

impl OldSplits {
    /// Returns no splits.
    pub fn new(alloc: Global) -> OldSplits {
        OldSplits {
            nodes: Vec::new(alloc),
        }
    }

    /// Returns the splits of a certificate's nodes.
    ///
    /// # Errors
    ///
    /// `Memory` where memory runs out.
    pub fn of(alloc: Global, nodes: &[Node]) -> Result<OldSplits, Memory> {
        let ends = ends_of(alloc, nodes)?;
        let mut splits = Vec::new(alloc);
        for (place, node) in nodes.iter().enumerate() {
            let split = match node {
                Node::Split { arc, b, .. } => Some(OldSplit {
                    arc: *arc,
                    b: *b,
                    high: end_at(ends.as_slice(), place.saturating_add(1)),
                }),
                Node::Priced { .. } | Node::Pinned | Node::Bare => None,
            };
            splits.push(split)?;
        }
        Ok(OldSplits { nodes: splits })
    }

    /// Returns the split at a place, if there is one.
    fn at(&self, place: usize) -> Option<OldSplit> {
        match self.nodes.get(place) {
            Some(split) => *split,
            None => None,
        }
    }

    /// Returns the place of the half to which a cut goes from a place.
    fn below(&self, place: usize, cut: &Cut) -> Option<usize> {
        let split = self.at(place)?;
        if split.arc != cut.arc || split.b != cut.b {
            return None;
        }
        match cut.side {
            Side::Low => Some(place.saturating_add(1)),
            Side::High => Some(split.high),
        }
    }

    /// Returns the arc on which the node at a path of cuts was split, base cuts first; `None` where there was
    /// no such node or it was not split.
    fn arc_at(&self, cuts: &[Cut]) -> Option<ArcKey> {
        let mut place = 0;
        for cut in cuts {
            match self.below(place, cut) {
                Some(next) => place = next,
                None => {
                    if place > 0 {
                        return None;
                    }
                }
            }
        }
        let split = self.at(place)?;
        Some(split.arc)
    }

    /// Returns the number of the arc on which the node at a path of cuts was split, where its trees weigh no
    /// whole number now.
    pub fn sharp_arc(
        &self,
        graph: &Graph,
        cuts: &[Cut],
        pool: &Pool,
        shares: &[Share],
    ) -> Option<u32> {
        let arc = self.arc_at(cuts)?;
        let rest = weight_of(&arc, pool, shares) % ONE;
        if rest <= NEAR || ONE.saturating_sub(rest) <= NEAR {
            return None;
        }
        graph.find(&arc)
    }
}

/// Returns what the trees weigh that have an arc, in units of 2^-32.
fn weight_of(arc: &ArcKey, pool: &Pool, shares: &[Share]) -> i64 {
    let mut sum = 0i64;
    for share in shares {
        if share.column < pool.len() && pool.has_arc(share.column, arc) {
            sum = sum.saturating_add(share.weight);
        }
    }
    sum
}
