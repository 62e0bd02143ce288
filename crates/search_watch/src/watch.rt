//! The trait of watches.

ghost use Rattle.std.specs.Prelude.{◌≡◌, Bool, true, false, None, IsTrue};

use crate::standing::{Standing, Subject};
use crate::work::Work;

/// What watches a search, and may stop it between two turns or within one.
pub trait Watch {
    // Whether it lets a search go on to its end.
    ghost patient: { Self → Bool };

    /// Begins to watch a search that is to stop after so many seconds, or that is not to be stopped.
    fn begin(&mut self, subject: Subject, seconds: Option<u32>)
        ensures { seconds ≡ None → IsTrue (patient self.new) };

    /// Is told how far the search is, and says whether it is to go on.
    fn goes_on(&mut self, standing: &Standing) -> bool
        ensures { IsTrue (patient self.old) → (result ≡ true) × IsTrue (patient self.new) };

    /// Says whether the search is to stop. It is asked within a turn too, and answers in less than a
    /// millionth of a second.
    fn is_over(&self) -> bool
        ensures { IsTrue (patient self.now) → result ≡ false };

    /// Is told what the search does now.
    fn tell(&self, work: Work);

    /// Is told what the best roster costs that was found within the turn.
    fn tell_cost(&self, cost: u64);
}
