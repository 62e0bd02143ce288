//! The beginning of a list of rule uses, and its children.

ghost use Rattle.std.specs.Prelude.{◌≡◌, ◌≤◌, ◌<◌, ◌+◌, OnOk, IfOk};
ghost use Rattle.tree_ranking.specs.Candidates.{child_of};
ghost use Rattle.tree_ranking.specs.Frames.{inside_of};

use crate::frame::Frame;
use crate::pending::Pending;
use model_rosters::{List, Memory, Step};
use std::alloc::Global;
use tree_span_cells::{Span, Suffix};

/// The trees of the day whose rule uses begin with these.
#[derive(Drop)]
pub struct Candidate {
    /// The least sum of such a tree.
    pub sum: i128,
    /// The rule uses.
    pub steps: List<Step>,
    /// What is still to be derived.
    pub pending: Pending,
}

/// A next rule use at the start of a frame, and the least sum of the trees of the day that go on with it.
#[derive(Clone, Copy, Drop)]
pub struct Child {
    /// The least sum.
    pub sum: i128,
    /// The number of the rule, from 1.
    pub rule: u8,
    /// How many periods it has.
    pub len: u8,
}

/// Returns the whole right side of a rule use.
pub fn inside(step: Step) -> Frame
    ensures { result ≡ inside_of step }
{
    Frame {
        suffix: Suffix {
            rule: step.rule,
            from: 0,
        },
        span: Span {
            start: step.start,
            len: step.len,
        },
    }
}

impl Candidate {
    /// Goes on with a rule use for the first symbol of a frame that was taken from what is pending.
    ///
    /// # Errors
    ///
    /// `Memory` where memory runs out; nothing is said of the candidate then.
    pub fn go_on(&mut self, frame: Frame, child: Child) -> Result<(), Memory>
        requires part { child.len ≤ frame.span.len }
        requires place { frame.suffix.from < 255 }
        requires day { frame.span.start + frame.span.len < 256 }
        ensures { OnOk result (self.new ≡ child_of self.old.steps frame self.old.pending child) }
    {
        let step = Step {
            rule: child.rule,
            start: frame.span.start,
            len: child.len,
        };
        self.steps.push(step)?;
        self.pending.push(frame.after(child.len))?;
        self.pending.push(inside(step))?;
        self.sum = child.sum;
        Ok(())
    }

    /// Returns the candidate that goes on so, beside this one.
    ///
    /// # Errors
    ///
    /// `Memory` where memory runs out; nothing is kept then.
    pub fn child(&self, alloc: Global, frame: Frame, child: Child) -> Result<Candidate, Memory>
        requires part { child.len ≤ frame.span.len }
        requires place { frame.suffix.from < 255 }
        requires day { frame.span.start + frame.span.len < 256 }
        ensures { IfOk result (λ c. c ≡ child_of self.now.steps frame self.now.pending child) }
    {
        let mut steps = List::new(alloc);
        steps.extend_from_slice(self.steps.as_slice())?;
        let pending = self.pending.copy(alloc)?;
        let mut candidate = Candidate {
            sum: child.sum,
            steps,
            pending,
        };
        candidate.go_on(frame, child)?;
        Ok(candidate)
    }
}
