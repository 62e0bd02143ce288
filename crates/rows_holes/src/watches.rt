//! A watch that is over at its n-th question.

use search_watch::{Standing, Subject, Watch, Work};
use std::cell::Cell;

/// A watch that is over at its n-th question and from then on, and counts the questions. It is patient while
/// it has no seconds.
#[derive(Drop)]
pub struct NthWatch {
    seconds: Option<u32>,
    over_at: u32,
    asked: Cell<u32>,
}

impl NthWatch {
    /// Returns a watch that is over at this question; without one it is never over.
    pub fn new(over_at: Option<u32>) -> NthWatch {
        NthWatch {
            seconds: over_at,
            over_at: over_at.unwrap_or(0),
            asked: Cell::new(0),
        }
    }

    /// Returns how often it was asked.
    pub fn asked(&self) -> u32 {
        self.asked.get()
    }
}

impl Watch for NthWatch {
    ghost use Rattle.std.specs.Option.{is_none};

    ghost patient = { λ w. is_none w.seconds };

    /// Begins with a search.
    fn begin(&mut self, _subject: Subject, seconds: Option<u32>) {
        self.seconds = seconds;
    }

    /// Says whether it was asked too seldom to be over.
    fn goes_on(&mut self, _standing: &Standing) -> bool {
        self.seconds.is_none() || self.asked.get() < self.over_at
    }

    /// Counts the question, and says whether it is over.
    fn is_over(&self) -> bool {
        let asked = self.asked.get().saturating_add(1);
        self.asked.set(asked);
        self.seconds.is_some() && asked >= self.over_at
    }

    /// Keeps nothing.
    fn tell(&self, _work: Work) {}

    /// Keeps nothing.
    fn tell_cost(&self, _cost: u64) {}
}
