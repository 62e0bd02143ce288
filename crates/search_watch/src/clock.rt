//! The watch by a clock.

use crate::standing::{Standing, Subject};
use crate::watch::Watch;
use crate::work::Work;
use std::cell::Cell;
use std::rt::Clock;
use std::time::Instant;

/// How many seconds lie between two notes at least, and before the first one.
const APART: u64 = 2;

/// A watch by a clock, which notes on standard error how far a search is, and stops it where its time is
/// over.
///
/// It notes a line at most every two seconds, between two turns or within one. A note that is refused is
/// lost. Where the clock fails, nothing is noted, and a search that is to stop after some seconds stops.
#[derive(Drop)]
pub struct ClockWatch<R: Clock + Eprint + Drop> {
    rt: R,
    subject: Subject,
    /// When the search began, where the clock told it.
    begun: Option<Instant>,
    /// After how many seconds it is to stop.
    seconds: Option<u32>,
    /// How many seconds after its begin the last line was noted.
    noted: Cell<u64>,
    /// How many turns were taken when it was last told.
    turn: Cell<u32>,
    /// How many turns may be taken, where it was told.
    turns: Cell<Option<u32>>,
    /// What the search does within its turn.
    work: Cell<Work>,
    /// What the best roster costs, where there is one.
    cost: Cell<Option<u64>>,
}

/// Returns by how much a cost is above a bound, in tenths of a hundredth of the cost, rounded up.
fn share(cost: u64, bound: u64) -> u64 {
    let apart = u128::from(cost.saturating_sub(bound)).saturating_mul(1_000);
    let whole = u128::from(cost.max(1));
    let share = apart.saturating_add(whole.saturating_sub(1)) / whole;
    share.min(1_000) as u64
}

impl<R: Clock + Eprint + Drop> ClockWatch<R> {
    /// Returns a watch of a runtime, which stops no search before it begins with one.
    pub fn new(rt: R) -> ClockWatch<R> {
        ClockWatch {
            rt,
            subject: Subject::Solve,
            begun: None,
            seconds: None,
            noted: Cell::new(0),
            turn: Cell::new(0),
            turns: Cell::new(None),
            work: Cell::new(Work::First),
            cost: Cell::new(None),
        }
    }

    /// Returns how many seconds ago the search began, where the clock tells it.
    fn passed(&self) -> Option<u64> {
        let begun = self.begun?;
        match begun.elapsed(&self.rt) {
            Ok(time) => Some(time.as_secs()),
            Err(_) => None,
        }
    }

    /// Notes whose search it is.
    fn note_subject(&self) {
        let _lost = match self.subject {
            Subject::Solve => eprint!(self.rt; "solve: "),
            Subject::Make => eprint!(self.rt; "make: "),
            Subject::Point { heads } => eprint!(self.rt; "curve: at most {heads} employees, "),
        };
    }

    /// Notes how many turns were taken, and of how many where no time is set.
    fn note_turns(&self, standing: &Standing) {
        let _lost = match self.seconds {
            Some(_) => eprint!(self.rt; "turn {}", standing.turn),
            None => eprint!(self.rt; "turn {} of {}", standing.turn, standing.turns),
        };
    }

    /// Notes the cost and the bound, and how far they are apart.
    fn note_cost(&self, standing: &Standing) {
        let bound = standing.bound;
        let _lost = match standing.cost {
            Some(cost) => {
                let share = share(cost, bound);
                let (hundredths, tenths) = (share / 10, share % 10);
                eprint!(self.rt; ", cost {cost}, bound {bound} ({hundredths}.{tenths} % apart)")
            }
            None => eprint!(self.rt; ", cost none, bound {bound}"),
        };
    }

    /// Notes how many leaves are open, and how many nodes have no prices, if any.
    fn note_leaves(&self, standing: &Standing) {
        let _lost = eprint!(self.rt; ", {} open", standing.open);
        if standing.unpriced > 0 {
            let _lost = eprint!(self.rt; ", {} without prices", standing.unpriced);
        }
    }

    /// Notes how many seconds have passed, and of how many where a time is set, and ends the line.
    fn note_time(&self, passed: u64) {
        let _lost = match self.seconds {
            Some(seconds) => eprintln!(self.rt; ", {passed} s of {seconds}"),
            None => eprintln!(self.rt; ", {passed} s"),
        };
    }

    /// Notes how far the search is between two turns.
    fn note(&self, standing: &Standing, passed: u64) {
        self.note_subject();
        self.note_turns(standing);
        self.note_cost(standing);
        self.note_leaves(standing);
        self.note_time(passed);
    }

    /// Notes which turn is under way, and of how many where no time is set.
    fn note_turn(&self) {
        let turn = self.turn.get().saturating_add(1);
        let _lost = match (self.seconds, self.turns.get()) {
            (None, Some(turns)) => eprint!(self.rt; "turn {turn} of {turns}"),
            _ => eprint!(self.rt; "turn {turn}"),
        };
    }

    /// Notes what the turn is at.
    fn note_work(&self) {
        let _lost = match self.work.get() {
            Work::First => eprint!(self.rt; ", a first roster"),
            Work::Prices { trees, .. } => eprint!(self.rt; ", prices: {trees} trees"),
            Work::Splits => eprint!(self.rt; ", where to split"),
            Work::Rosters => eprint!(self.rt; ", rosters"),
        };
    }

    /// Notes the cost at hand, and the bound that the prices at hand show, where there is one.
    fn note_at_hand(&self) {
        let _lost = match self.cost.get() {
            Some(cost) => eprint!(self.rt; ", cost {cost}"),
            None => eprint!(self.rt; ", cost none"),
        };
        if let Work::Prices {
            bound: Some(bound),
            ..
        } = self.work.get()
        {
            let _lost = eprint!(self.rt; ", bound {bound} so far");
        }
    }

    /// Notes how far the search is within its turn, if the last note is long ago.
    fn note_within(&self, passed: u64) {
        if !self.is_due(passed) {
            return;
        }
        self.note_subject();
        self.note_turn();
        self.note_work();
        self.note_at_hand();
        self.note_time(passed);
    }

    /// Says whether the last note is long ago after so many seconds, and counts from now where it is.
    fn is_due(&self, passed: u64) -> bool {
        if passed < self.noted.get().saturating_add(APART) {
            return false;
        }
        self.noted.set(passed);
        true
    }
}

impl<R: Clock + Eprint + Drop> Watch for ClockWatch<R> {
    ghost use Rattle.std.specs.Option.{is_none};

    ghost patient = { λ w. is_none w.seconds };

    /// Begins with a search: nothing of it was noted yet, and its seconds count from now.
    fn begin(&mut self, subject: Subject, seconds: Option<u32>) {
        self.subject = subject;
        self.seconds = seconds;
        self.noted.set(0);
        self.turn.set(0);
        self.turns.set(None);
        self.work.set(Work::First);
        self.cost.set(None);
        self.begun = match Instant::now(&self.rt) {
            Ok(now) => Some(now),
            Err(_) => None,
        };
    }

    /// Notes how far the search is, if the last note is long ago, and says whether its seconds have not
    /// passed.
    fn goes_on(&mut self, standing: &Standing) -> bool {
        self.turn.set(standing.turn);
        self.turns.set(Some(standing.turns));
        self.cost.set(standing.cost);
        let Some(passed) = self.passed() else {
            return self.seconds.is_none();
        };
        if self.is_due(passed) {
            self.note(standing, passed);
        }
        self.seconds
            .is_none_or(|seconds| passed < u64::from(seconds))
    }

    /// Notes how far the turn is, if the last note is long ago, and says whether the seconds have passed.
    fn is_over(&self) -> bool {
        let Some(passed) = self.passed() else {
            return self.seconds.is_some();
        };
        self.note_within(passed);
        self.seconds
            .is_some_and(|seconds| passed >= u64::from(seconds))
    }

    /// Remembers what the search does, for notes.
    fn tell(&self, work: Work) {
        self.work.set(work);
    }

    /// Remembers what the best roster costs, for notes.
    fn tell_cost(&self, cost: u64) {
        self.cost.set(Some(cost));
    }
}
