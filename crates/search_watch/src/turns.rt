//! The watch that counts turns as seconds.

use crate::standing::{Standing, Subject};
use crate::watch::Watch;
use crate::work::Work;

/// A watch without a clock: it counts a second for each turn, and stops nothing within one.
#[derive(Clone, Copy, Debug, Drop)]
pub struct TurnWatch {
    seconds: Option<u32>,
}

impl TurnWatch {
    /// Returns a watch that stops no search before it begins with one.
    pub fn new() -> TurnWatch {
        TurnWatch { seconds: None }
    }
}

impl Watch for TurnWatch {
    ghost use Rattle.std.specs.Option.{is_none};

    ghost patient = { λ w. is_none w.seconds };

    /// Begins with a search.
    fn begin(&mut self, _subject: Subject, seconds: Option<u32>) {
        self.seconds = seconds;
    }

    /// Says whether so many turns are not yet taken.
    fn goes_on(&mut self, standing: &Standing) -> bool {
        self.seconds.is_none_or(|seconds| standing.turn < seconds)
    }

    /// Says that no turn is over before its end.
    fn is_over(&self) -> bool {
        false
    }

    /// Keeps nothing.
    fn tell(&self, _work: Work) {}

    /// Keeps nothing.
    fn tell_cost(&self, _cost: u64) {}
}
