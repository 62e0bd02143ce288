//! The better of two candidates for a pivot.

use crate::bounds::Weight64;

/// A candidate for a pivot: the greater its size squared over its weight, the better.
#[derive(Clone, Copy, Drop)]
pub(crate) struct Candidate {
    pub(crate) place: usize,
    /// Its size squared.
    pub(crate) square: f64,
    pub(crate) weight: Weight64,
}

impl Candidate {
    /// Returns the better of the best one so far and this one, the first of equal ones.
    pub(crate) fn best(self, so_far: Option<Candidate>) -> Option<Candidate> {
        match so_far {
            Some(best) if self.square * best.weight <= best.square * self.weight => Some(best),
            _ => Some(self),
        }
    }
}
