//! The first candidate, gone on with.

ghost use Rattle.std.specs.Prelude.{ℕ, ◌≡◌, ◌≤◌, ◌<◌, ◌+◌, ◌^◌, ◌+ℤ◌, ◌≤ℤ◌, ◌<ℤ◌, [], ◌∷◌, OnOk, length, map};
ghost use Rattle.model_rosters.specs.Folds.{Each};
ghost use Rattle.model_rosters.specs.Sums.{Within};
ghost use Rattle.tree_ranking.specs.declared.candidate.Child.{Child as Further};
ghost use Rattle.tree_ranking.specs.Candidates.{child_of};
ghost use Rattle.tree_ranking.specs.Children.{child_at, TakesLeast};
ghost use Rattle.tree_ranking.specs.Frames.{IsSums};
ghost use Rattle.tree_ranking.specs.Progresses.{CanTake, Branches, IsOffered, IsProgress, steps_left};
ghost use Rattle.tree_ranking.specs.Walks.{first_with};

use crate::candidate::{Candidate, Child};
use crate::children::children_of;
use crate::frame::Frame;
use crate::progress::{is_beyond, offer};
use crate::ranking::Ranked;
use crate::sums::{Sums, frame_least};
use model_rosters::{Grammar, LetterPrice, Memory, Sym};
use std::alloc::Global;
use std::collections::VecDeque;

// The place of the first child of least sum.
fn least_place(children: &[Child]) -> usize
    requires { 0 < length children.now }
    ensures within { result < length children.now }
    ensures before { (k : ℕ) → k < result
        → (child_at children.now result).sum <ℤ (child_at children.now k).sum }
    ensures after { (k : ℕ) → result ≤ k → k < length children.now
        → (child_at children.now result).sum ≤ℤ (child_at children.now k).sum }
{
    let mut best = 0usize;
    for place in 1..children.len() {
        if children[place].sum < children[best].sum {
            best = place;
        }
    }
    best
}

// Takes the first child of least sum from the others.
fn take_least(children: &mut Vec<Child>) -> Child
    requires { 0 < length children.old.items }
    ensures { TakesLeast children.old.items result children.new.items }
{
    let best = least_place(children.as_slice());
    children.remove(best)
}

// Puts the candidate that goes on with a child among those that wait. It is copied only where its sum does
// not show that it would be dropped.
fn offer_child(
    alloc: Global,
    frame: Frame,
    child: Child,
    room: usize,
    current: &Candidate,
    waiting: &mut VecDeque<Candidate>,
) -> Result<(), Memory>
    requires part { child.len ≤ frame.span.len }
    requires place { frame.suffix.from < 255 }
    requires day { frame.span.start + frame.span.len < 256 }
    requires waiting { CanTake room waiting.old.items
        (child_of current.now.steps frame current.now.pending child ∷ []) }
    ensures { OnOk result (IsOffered room (child_of current.now.steps frame current.now.pending child)
        waiting.old.items waiting.new.items) }
{
    if is_beyond(waiting, room, &child) {
        return Ok(());
    }
    let sibling = current.child(alloc, frame, child)?;
    offer(waiting, room, sibling)
}

// Goes on with the first child of least sum, and puts the others among those that wait.
fn branch(
    alloc: Global,
    frame: Frame,
    children: &mut Vec<Child>,
    room: usize,
    current: &mut Candidate,
    waiting: &mut VecDeque<Candidate>,
) -> Result<(), Memory>
    requires some { 0 < length children.old.items }
    requires short { Each (λ (ch : Further). ch.len ≤ frame.span.len) children.old.items }
    requires place { frame.suffix.from < 255 }
    requires day { frame.span.start + frame.span.len < 256 }
    requires waiting { CanTake room waiting.old.items
        (map (child_of current.old.steps frame current.old.pending) children.old.items) }
    ensures { OnOk result (Branches room frame children.old.items current.old waiting.old.items current.new
        waiting.new.items) }
{
    let best = take_least(children);
    for place in 0..children.len() {
        offer_child(alloc, frame, children[place], room, current, waiting)?;
    }
    current.go_on(frame, best)
}

// What the sum of a candidate is above the least sum of its first frame.
fn above(sum: i128, least: i128) -> i128
    requires sum { Within (2 ^ 110) sum }
    requires least { Within (2 ^ 111) least }
    ensures value { result +ℤ least ≡ sum }
    ensures within { Within (2 ^ 112) result }
{
    sum - least
}

// Goes on with a candidate from which its first frame was taken.
fn advance<P: LetterPrice>(
    alloc: Global,
    grammar: &Grammar,
    prices: &P,
    sums: &Sums,
    most: usize,
    given: &[Ranked],
    frame: Frame,
    current: &mut Candidate,
    waiting: &mut VecDeque<Candidate>,
) -> Result<(), Memory>
    requires sums { IsSums grammar.now (P.view prices.now) sums.now }
    requires progress { IsProgress grammar.now (P.view prices.now) most given.now
        (first_with current.old.sum current.old.steps frame current.old.pending ∷ waiting.old.items) [] }
    ensures progress { OnOk result (IsProgress grammar.now (P.view prices.now) most given.now
        (current.new ∷ waiting.new.items) []) }
    ensures left { OnOk result (steps_left grammar.now current.new
        < steps_left grammar.now (first_with current.old.sum current.old.steps frame current.old.pending)) }
{
    match frame.symbol(grammar) {
        None => Ok(()),
        Some(Sym::Code(_)) => current.pending.push(frame.after(1)),
        Some(Sym::Name(name)) => {
            let Some(least) = frame_least(grammar, prices, sums, frame) else {
                unreachable!();
            };
            let base = above(current.sum, least);
            let mut children = children_of(alloc, grammar, prices, sums, frame, name, base)?;
            let room = most - given.len() - 1;
            branch(alloc, frame, &mut children, room, current, waiting)
        }
    }
}

/// Goes on with the first of the candidates until nothing of it is pending, each time with its first
/// child of least sum. The other children are put among those that wait.
///
/// # Errors
///
/// `Memory` where memory runs out; nothing is said of the candidates then.
pub fn descend<P: LetterPrice>(
    alloc: Global,
    grammar: &Grammar,
    prices: &P,
    sums: &Sums,
    most: usize,
    given: &[Ranked],
    current: &mut Candidate,
    waiting: &mut VecDeque<Candidate>,
) -> Result<(), Memory>
    requires sums { IsSums grammar.now (P.view prices.now) sums.now }
    requires progress { IsProgress grammar.now (P.view prices.now) most given.now
        (current.old ∷ waiting.old.items) [] }
    ensures progress { OnOk result (IsProgress grammar.now (P.view prices.now) most given.now
        (current.new ∷ waiting.new.items) []) }
    ensures whole { OnOk result (current.new.pending ≡ []) }
{
    while let Some(frame) = current.pending.pop() {
        advance(
            alloc, grammar, prices, sums, most, given, frame, current, waiting,
        )?;
    }
    Ok(())
}
