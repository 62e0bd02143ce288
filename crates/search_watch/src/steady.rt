//! The watch that lets each search go on.

use crate::standing::{Standing, Subject};
use crate::watch::Watch;
use crate::work::Work;

/// A watch that lets each search go on to its end, and says nothing.
#[derive(Clone, Copy, Debug, Drop)]
pub struct SteadyWatch;

impl Watch for SteadyWatch {
    ghost use Rattle.std.specs.Prelude.{true};

    ghost patient = { λ _. true };

    /// Begins with a search.
    fn begin(&mut self, _subject: Subject, _seconds: Option<u32>) {}

    /// Says that each search goes on.
    fn goes_on(&mut self, _standing: &Standing) -> bool {
        true
    }

    /// Says that no search is over.
    fn is_over(&self) -> bool {
        false
    }

    /// Keeps nothing.
    fn tell(&self, _work: Work) {}

    /// Keeps nothing.
    fn tell_cost(&self, _cost: u64) {}
}
