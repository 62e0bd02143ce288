//! The first trees in order: `rank`, and its answer.

ghost use Rattle.std.specs.Prelude.{◌≡◌, ◌≤◌, [], ◌∷◌, IfOk};
ghost use Rattle.model_rosters.specs.Sound.{IsSound};
ghost use Rattle.tree_ranking.specs.Frames.{IsSums};
ghost use Rattle.tree_ranking.specs.Progresses.{IsProgress};
ghost use Rattle.tree_ranking.specs.Ranking.{IsRanking};

use crate::branch::descend;
use crate::candidate::Candidate;
use crate::frame::Frame;
use crate::pending::Pending;
use crate::sums::{Sums, frame_least};
use model_rosters::{Grammar, LetterPrice, List, Memory, Tree};
use std::alloc::Global;
use std::collections::VecDeque;
use tree_span_cells::{Span, Suffix, SumCells, fill_cells, layout_of};

/// A tree of the day with its sum.
#[derive(Debug, Drop)]
pub struct Ranked {
    /// The sum of its letters, arcs and rule uses.
    pub sum: i128,
    /// Its rule uses in preorder.
    pub tree: Tree,
}

// Returns the table of least sums under the prices.
fn sums_of<P: LetterPrice>(alloc: Global, grammar: &Grammar, prices: &P) -> Result<Sums, Memory>
    requires { IsSound grammar.now }
    ensures { IfOk result (IsSums grammar.now (P.view prices.now)) }
{
    let layout = layout_of(alloc, grammar)?;
    let mut cells = SumCells::for_layout(alloc, grammar, &layout)?;
    fill_cells(grammar, prices, &layout, &mut cells);
    Ok(Sums { layout, cells })
}

// The candidate with no rule use yet and one frame.
fn candidate_of(alloc: Global, frame: Frame, sum: i128) -> Result<Candidate, Memory>
    ensures { IfOk result (λ c. c ≡ record { sum = sum; steps = []; pending = frame ∷ [] }) }
{
    let mut pending = Pending::new(alloc);
    pending.push(frame)?;
    Ok(Candidate {
        sum,
        steps: List::new(alloc),
        pending,
    })
}

// One candidate alone.
fn alone(alloc: Global, candidate: Candidate) -> Result<VecDeque<Candidate>, Memory>
    ensures { IfOk result (λ v. v.items ≡ candidate ∷ []) }
{
    let mut candidates = VecDeque::new(alloc);
    candidates.push_back(candidate)?;
    Ok(candidates)
}

// Returns the candidate of all trees of the day, alone, or none where no tree has a sum.
fn start<P: LetterPrice>(
    alloc: Global,
    grammar: &Grammar,
    prices: &P,
    sums: &Sums,
    most: u32,
) -> Result<VecDeque<Candidate>, Memory>
    requires sums { IsSums grammar.now (P.view prices.now) sums.now }
    requires some { 1 ≤ most }
    ensures { IfOk result (λ v. IsProgress grammar.now (P.view prices.now) most [] v.items []) }
{
    let frame = Frame {
        suffix: Suffix { rule: 0, from: 1 },
        span: Span {
            start: 1,
            len: grammar.periods,
        },
    };
    let Some(sum) = frame_least(grammar, prices, sums, frame) else {
        return Ok(VecDeque::new(alloc));
    };
    let all = candidate_of(alloc, frame, sum)?;
    let waiting = alone(alloc, all)?;
    Ok(waiting)
}

// Returns the trees of the day that begin with a candidate, one after another, until no candidate waits.
fn rank_waiting<P: LetterPrice>(
    alloc: Global,
    grammar: &Grammar,
    prices: &P,
    sums: &Sums,
    most: u32,
    waiting: &mut VecDeque<Candidate>,
) -> Result<List<Ranked>, Memory>
    requires sums { IsSums grammar.now (P.view prices.now) sums.now }
    requires progress { IsProgress grammar.now (P.view prices.now) most [] waiting.old.items [] }
    ensures { IfOk result (IsRanking grammar.now (P.view prices.now) most) }
{
    let mut given = List::new(alloc);
    while let Some(mut current) = waiting.pop_front() {
        descend(
            alloc,
            grammar,
            prices,
            sums,
            most as usize,
            given.as_slice(),
            &mut current,
            waiting,
        )?;
        given.push(Ranked {
            sum: current.sum,
            tree: current.steps,
        })?;
    }
    Ok(given)
}

// Returns the first trees of the day by the table of least sums.
fn rank_by<P: LetterPrice>(
    alloc: Global,
    grammar: &Grammar,
    prices: &P,
    sums: &Sums,
    most: u32,
) -> Result<List<Ranked>, Memory>
    requires sums { IsSums grammar.now (P.view prices.now) sums.now }
    requires some { 1 ≤ most }
    ensures { IfOk result (IsRanking grammar.now (P.view prices.now) most) }
{
    let mut waiting = start(alloc, grammar, prices, sums, most)?;
    rank_waiting(alloc, grammar, prices, sums, most, &mut waiting)
}

/// Returns the first trees of the day in ascending order of their sums, and trees of equal sums in
/// ascending order of their rule uses: `most` of them, or all where there are fewer. A tree with a
/// forbidden letter has no sum and is left out.
///
/// # Errors
///
/// `Memory` where memory runs out; nothing is kept then.
pub fn rank<P: LetterPrice>(
    alloc: Global,
    grammar: &Grammar,
    prices: &P,
    most: u32,
) -> Result<List<Ranked>, Memory>
    requires sound { IsSound grammar.now }
    requires some { 1 ≤ most }
    requires few { most ≤ 1000 }
    ensures { IfOk result (IsRanking grammar.now (P.view prices.now) most) }
{
    let sums = sums_of(alloc, grammar, prices)?;
    rank_by(alloc, grammar, prices, &sums, most)
}
