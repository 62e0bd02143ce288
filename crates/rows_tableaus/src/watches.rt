//! A watch that is over at each question.

use search_watch::{Standing, Subject, Watch, Work};

/// A watch that is over at each question, unless it begins without seconds.
#[derive(Drop)]
pub struct OverWatch {
    seconds: Option<u32>,
}

impl OverWatch {
    /// Returns a watch that is over.
    pub fn new() -> OverWatch {
        OverWatch { seconds: Some(0) }
    }
}

impl Watch for OverWatch {
    ghost use Rattle.std.specs.Option.{is_none};

    ghost patient = { λ w. is_none w.seconds };

    /// Begins with a search.
    fn begin(&mut self, _subject: Subject, seconds: Option<u32>) {
        self.seconds = seconds;
    }

    /// Says whether it is never over.
    fn goes_on(&mut self, _standing: &Standing) -> bool {
        self.seconds.is_none()
    }

    /// Says whether it is over.
    fn is_over(&self) -> bool {
        self.seconds.is_some()
    }

    /// Keeps nothing.
    fn tell(&self, _work: Work) {}

    /// Keeps nothing.
    fn tell_cost(&self, _cost: u64) {}
}
