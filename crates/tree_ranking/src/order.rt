//! The order of candidates.

ghost use Rattle.std.specs.Prelude.{◌≢◌, ◌<ℤ◌, [], ◌∷◌, IsTrue, IsFalse};
ghost use Rattle.std.specs.Bool.{OnTrue};
ghost use Rattle.tree_ranking.specs.Ranking.{UsesBefore};
ghost use Rattle.tree_ranking.specs.Candidates.{IsApart, Comes};

use crate::candidate::{Candidate, Child};
use model_rosters::Step;

// Says whether a rule use comes before another, which is not the same.
fn step_before(first: Step, second: Step) -> bool
    requires { first ≢ second }
    ensures yes { IsTrue result → UsesBefore (first ∷ []) (second ∷ []) }
    ensures no { IsFalse result → UsesBefore (second ∷ []) (first ∷ []) }
{
    if first.rule != second.rule {
        return first.rule < second.rule;
    }
    if first.start != second.start {
        return first.start < second.start;
    }
    first.len < second.len
}

// Says whether a list of rule uses comes before another, neither of which goes on from the other.
fn uses_before(first: &[Step], second: &[Step]) -> bool
    requires { IsApart first.now second.now }
    ensures yes { IsTrue result → UsesBefore first.now second.now }
    ensures no { IsFalse result → UsesBefore second.now first.now }
{
    for place in 0..first.len().min(second.len()) {
        if first[place] != second[place] {
            return step_before(first[place], second[place]);
        }
    }
    false
}

/// Says whether a candidate comes before another, neither of which goes on from the other.
pub fn comes_before(first: &Candidate, second: &Candidate) -> bool
    requires { IsApart first.now.steps second.now.steps }
    ensures yes { IsTrue result → Comes first.now second.now }
    ensures no { IsFalse result → Comes second.now first.now }
{
    if first.sum != second.sum {
        return first.sum < second.sum;
    }
    uses_before(first.steps.as_slice(), second.steps.as_slice())
}

/// Says whether a candidate's sum is below that of a child.
pub fn is_below(candidate: &Candidate, child: &Child) -> bool
    ensures { OnTrue result (candidate.now.sum <ℤ child.now.sum) }
{
    candidate.sum < child.sum
}
