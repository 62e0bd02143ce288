//! The call: what is tried, and which arc is named.

ghost use Rattle.std.specs.Prelude.{◌<◌, IfOk, IfSome, length};
ghost use Rattle.search_strong_branching.specs.Nodes.{IsSplitNode};

use crate::bench::ProbeBench;
use crate::candidates::{Candidate, Candidates, ONE, candidates_of};
use crate::gains::Gains;
use crate::halves::halves_of;
use crate::node::SplitNode;
use crate::sums::sums_of;
use model_rosters::Memory;
use search_watch::Watch;
use std::alloc::Global;
use tree_graph::Graph;

/// The dual steps of a glance, which try a cut on each candidate.
const GLANCE: u32 = 3;

/// How many candidates are tried further.
const KEPT: usize = 4;

/// The dual steps that try a cut on these.
const TRY: u32 = 20;

/// A letter is named unless an arc's score is more than so many times as great.
const FAVOUR: i128 = 2;

/// What candidates stand for.
#[derive(Clone, Copy, PartialEq, Eq, Drop)]
enum Kind {
    /// Arcs of all kinds.
    Arcs,
    /// Letters, whose gains are counted, and which count where a half raises the bound that is shown.
    Letters,
}

impl Kind {
    /// Returns of how many equal parts of the budget one is left once this kind is tried no further.
    fn parts(self) -> u64 {
        match self {
            Kind::Arcs => 2,
            Kind::Letters => 1,
        }
    }
}

/// A candidate with its score; none with score 0.
#[derive(Clone, Copy, Drop)]
struct Rated {
    score: i128,
    candidate: Option<Candidate>,
}

const NONE: Rated = Rated {
    score: 0,
    candidate: None,
};

/// Puts a candidate before those of less score, the last of which falls out.
fn rank(ranked: &mut [Rated], rated: Rated) {
    let mut next = rated;
    for place in ranked.iter_mut() {
        if next.score > place.score {
            let behind = *place;
            *place = next;
            next = behind;
        }
    }
}

/// Returns the candidates of the greatest scores at a glance.
fn kept_of<W: Watch>(
    alloc: Global,
    node: &SplitNode,
    bench: &mut ProbeBench,
    candidates: &[Candidate],
    kind: Kind,
    watch: &W,
) -> Result<Vec<Rated>, Memory> {
    let (graph, pool) = (node.day.graph, node.pool);
    let mut kept = vec![in alloc; NONE; KEPT]?;
    for candidate in candidates {
        if bench.is_spent(kind.parts(), watch) {
            return Ok(kept);
        }
        let least = kept.last().map_or(0, |rated| rated.score);
        let score = halves_of(graph, pool, bench, candidate, GLANCE, least, watch)?.score();
        let candidate = Some(*candidate);
        rank(kept.as_mut_slice(), Rated { score, candidate });
    }
    Ok(kept)
}

/// Returns the candidate of the greatest score of those that are kept, the first of several; of letters one
/// of whose halves raises the bound that is shown.
fn best_kept<W: Watch>(
    node: &SplitNode,
    bench: &mut ProbeBench,
    kept: &[Rated],
    kind: Kind,
    gains: &mut Gains,
    watch: &W,
) -> Result<Rated, Memory> {
    let (graph, pool) = (node.day.graph, node.pool);
    let mut best = NONE;
    for rated in kept {
        let Some(candidate) = rated.candidate else {
            return Ok(best);
        };
        if bench.is_spent(kind.parts(), watch) {
            return Ok(best);
        }
        let halves = halves_of(graph, pool, bench, &candidate, TRY, best.score, watch)?;
        if kind == Kind::Letters {
            gains.count(&candidate, &halves);
        }
        let score = halves.score();
        let is_of_use = kind == Kind::Arcs || bench.is_raised(halves.most());
        if score > best.score && is_of_use {
            best = Rated {
                score,
                candidate: rated.candidate,
            };
        }
    }
    Ok(best)
}

/// Returns the best of the candidates of a kind, tried in two stages.
fn best_of<W: Watch>(
    alloc: Global,
    node: &SplitNode,
    bench: &mut ProbeBench,
    candidates: &[Candidate],
    kind: Kind,
    gains: &mut Gains,
    watch: &W,
) -> Result<Rated, Memory> {
    let kept = kept_of(alloc, node, bench, candidates, kind, watch)?;
    best_kept(node, bench, kept.as_slice(), kind, gains, watch)
}

/// Returns the arc that is named, of the best arc and the best letter.
fn named(arc: &Rated, letter: &Rated) -> Option<u32> {
    let is_arc_better = arc.score > letter.score.saturating_mul(FAVOUR);
    let best = if is_arc_better { arc } else { letter };
    match best.candidate {
        Some(candidate) => Some(candidate.arc),
        None => None,
    }
}

/// Returns the best of the arcs that are tried, at the node's program.
fn best_tried<W: Watch>(
    alloc: Global,
    node: &SplitNode,
    bench: &mut ProbeBench,
    candidates: &Candidates,
    gains: &mut Gains,
    watch: &W,
) -> Result<Option<u32>, Memory> {
    let arcs = candidates.arcs.as_slice();
    let arc = best_of(alloc, node, bench, arcs, Kind::Arcs, gains, watch)?;
    let letters = candidates.letters.as_slice();
    let letter = best_of(alloc, node, bench, letters, Kind::Letters, gains, watch)?;
    Ok(named(&arc, &letter))
}

/// Returns a number where it is that of an arc of the graph.
fn arc_of(graph: &Graph, number: Option<u32>) -> Option<u32>
    ensures { IfSome result (λ arc. arc < length graph.now.arcs) }
{
    match number {
        Some(arc) if (arc as usize) < graph.arcs().len() => Some(arc),
        _ => None,
    }
}

/// Returns the arcs that are tried.
fn tried(alloc: Global, node: &SplitNode, gains: &Gains) -> Result<Candidates, Memory>
    requires { IsSplitNode node.now }
{
    let graph = node.day.graph;
    let sums = sums_of(alloc, graph, node.pool, node.shares)?;
    candidates_of(alloc, graph, node.arc_box, sums.as_slice(), gains)
}

/// Returns an arc of the graph on which a node may be split well, from the weights of the trees at its
/// solution; `None` where it knows of none, or of one alone.
///
/// Arcs whose trees weigh no whole number are tried: both halves of their splits are solved for a few steps
/// at a float program, over some trees of the pool, and the arc is named for which the product of what both
/// add to the node's value is greatest. An arc that stands for a letter is named before others, unless its
/// product is less than half as great as theirs or neither half raises the value rounded up. No roster that
/// costs `limit` or more is looked for. It is a hint: that the split is sharp is for the caller to see. What
/// splits on letters gained is counted. Where the watch is over no further arc is tried.
///
/// # Errors
///
/// `Memory` where memory runs out.
pub fn best_arc<W: Watch>(
    alloc: Global,
    node: &SplitNode,
    limit: u64,
    gains: &mut Gains,
    watch: &W,
) -> Result<Option<u32>, Memory>
    requires { IsSplitNode node.now }
    ensures { IfOk result (λ found. IfSome found (λ arc. arc < length node.now.day.graph.now.arcs)) }
{
    let candidates = tried(alloc, node, gains)?;
    if candidates.are_few() {
        return Ok(None);
    }
    let limit = i128::from(limit).saturating_mul(i128::from(ONE));
    let Some(mut bench) = ProbeBench::new(alloc, node, limit, watch)? else {
        return Ok(None);
    };
    let number = best_tried(alloc, node, &mut bench, &candidates, gains, watch);
    drop(bench);
    Ok(arc_of(node.day.graph, number?))
}
