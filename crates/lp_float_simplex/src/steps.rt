//! A run, step by step, and how it ends.

use crate::care::STRICTER;
use crate::pivot::Step;
use crate::state::State;
use crate::sweeps::primal_entering;
use crate::tolerances::Tolerances;
use crate::values::are_feasible;
use lp_float_basis::{Entry64, Grown, LEAST_PIVOT};
use search_watch::Watch;

/// How many steps a run may take.
#[derive(Clone, Copy, Drop)]
pub struct Limits {
    /// Dual steps, between two of its turns.
    pub dual: u32,
    /// Primal steps, between two of its turns.
    pub primal: u32,
}

/// How a run ended.
#[derive(Clone, Copy, Debug, PartialEq, Eq, Drop)]
pub enum FloatSolved {
    /// No value is negative, and no listed column has a negative reduced cost, within tolerances.
    Optimal,
    /// The steps were taken.
    Spent,
    /// A row cannot be met, or the cost has no least value, as far as can be seen.
    Stuck,
    /// A number left its bounds.
    Grew,
}

/// After so many pivots the inverse is made anew.
const PIVOTS: u32 = 500;

/// After so many pivots values and prices are worked out from the inverse at the end of a turn.
const DRIFT: u32 = 50;

/// How many turns of dual and primal steps a run takes.
const TURNS: u32 = 4;

/// The watch is asked before each step whose number has none of these bits: each eighth.
const ASKED: u32 = 7;

/// Whether the watch ends a run before the step of this number.
fn is_over<W: Watch>(step: u32, watch: &W) -> bool {
    step & ASKED == 0 && watch.is_over()
}

/// Returns the answer that a step ends its loop with, if it does.
fn ended(step: Result<Step, Grown>) -> Option<FloatSolved> {
    match step {
        Ok(Step::Stepped) => None,
        Ok(Step::Done) => Some(FloatSolved::Optimal),
        Ok(Step::Stuck) => Some(FloatSolved::Stuck),
        Err(Grown) => Some(FloatSolved::Grew),
    }
}

/// Returns the answer behind the last step.
fn spent_unless(is_done: bool) -> FloatSolved {
    if is_done {
        FloatSolved::Optimal
    } else {
        FloatSolved::Spent
    }
}

impl State {
    /// Makes the inverse anew where many pivots were made.
    fn renew_old(&mut self) -> Result<(), Grown> {
        if self.counts.since >= PIVOTS {
            self.renew()
        } else {
            Ok(())
        }
    }

    /// Takes one dual step.
    fn next_dual(&mut self) -> Result<Step, Grown> {
        self.renew_old()?;
        if self.counts.since == 0 {
            self.shift_costs();
        }
        self.dual_step()
    }

    /// Takes one primal step.
    fn next_primal(&mut self) -> Result<Step, Grown> {
        self.renew_old()?;
        self.primal_step()
    }

    /// Whether no value is negative.
    fn is_feasible(&self) -> bool {
        are_feasible(self.positions.values.as_slice(), self.tolerances.value)
    }

    /// Whether no column has a negative reduced cost.
    fn is_priced_out(&self) -> bool {
        primal_entering(&self.figures, self.tolerances.reduced).is_none()
    }

    /// Takes dual steps until no value is negative. A watch that is over ends them as their limit does.
    fn run_dual<W: Watch>(&mut self, most: u32, watch: &W) -> FloatSolved {
        self.shift_costs();
        for step in 0..most {
            if is_over(step, watch) {
                break;
            }
            if let Some(answer) = ended(self.next_dual()) {
                return answer;
            }
        }
        spent_unless(self.is_feasible())
    }

    /// Takes primal steps until no column has a negative reduced cost. A watch that is over ends them as
    /// their limit does.
    fn run_primal<W: Watch>(&mut self, most: u32, watch: &W) -> FloatSolved {
        self.positions.has_weights = false;
        for step in 0..most {
            if is_over(step, watch) {
                break;
            }
            if let Some(answer) = ended(self.next_primal()) {
                return answer;
            }
        }
        spent_unless(self.is_priced_out())
    }

    /// Whether the basis is optimal.
    fn is_optimal(&self) -> bool {
        self.is_feasible() && self.is_priced_out()
    }

    /// Works the reduced costs out anew where a run is careful, since dual steps may have raised them.
    fn take_shift_off(&mut self) -> Result<(), Grown> {
        if self.is_careful {
            self.refresh()
        } else {
            Ok(())
        }
    }

    /// Takes dual steps where a value is negative.
    fn make_feasible<W: Watch>(&mut self, limits: Limits, watch: &W) -> FloatSolved {
        if self.is_feasible() {
            return FloatSolved::Optimal;
        }
        let answer = self.run_dual(limits.dual, watch);
        if self.take_shift_off().is_err() {
            return FloatSolved::Grew;
        }
        if answer == FloatSolved::Spent {
            let _steps = self.run_primal(limits.primal, watch);
        }
        answer
    }

    /// Takes one turn of dual and primal steps. Says how the run ends, if it does.
    fn turn<W: Watch>(&mut self, limits: Limits, watch: &W) -> Option<FloatSolved> {
        let answer = self.make_feasible(limits, watch);
        if answer != FloatSolved::Optimal {
            return Some(answer);
        }
        let answer = self.run_primal(limits.primal, watch);
        if answer != FloatSolved::Optimal {
            return Some(answer);
        }
        if self.counts.drift > DRIFT && self.refresh().is_err() {
            return Some(FloatSolved::Grew);
        }
        if self.is_optimal() {
            Some(FloatSolved::Optimal)
        } else {
            None
        }
    }

    /// Takes turns until one ends.
    fn run_turns<W: Watch>(&mut self, limits: Limits, watch: &W) -> FloatSolved {
        for _turn in 0..TURNS {
            if let Some(answer) = self.turn(limits, watch) {
                return answer;
            }
        }
        FloatSolved::Spent
    }

    /// Works out what changed since the last run.
    fn prepare(&mut self) -> Result<(), Grown> {
        if self.changes.is_mispriced {
            return self.refresh();
        }
        self.price_new();
        if self.changes.is_stale {
            return self.renew_values();
        }
        Ok(())
    }

    /// Prepares, and takes turns until one ends.
    fn run_prepared<W: Watch>(&mut self, limits: Limits, watch: &W) -> FloatSolved {
        match self.prepare() {
            Ok(()) => self.run_turns(limits, watch),
            Err(Grown) => FloatSolved::Grew,
        }
    }

    /// Runs once more from those columns of the basis whose pivots are more than this in size.
    fn run_above<W: Watch>(&mut self, least: Entry64, limits: Limits, watch: &W) -> FloatSolved {
        match self.renew_above(least) {
            Ok(()) => self.run_turns(limits, watch),
            Err(Grown) => FloatSolved::Grew,
        }
    }

    /// Runs once more from fewer and fewer columns of the basis, until no number leaves its bounds.
    fn run_stricter<W: Watch>(&mut self, limits: Limits, watch: &W) -> FloatSolved {
        for least in STRICTER {
            let answer = self.run_above(least, limits, watch);
            if answer != FloatSolved::Grew {
                return answer;
            }
        }
        FloatSolved::Grew
    }

    /// Runs, and where a number left its bounds once more from the same basis, or, where it is careful, from
    /// those columns of the basis that hardly depend on others.
    fn run_again<W: Watch>(&mut self, limits: Limits, watch: &W) -> FloatSolved {
        let answer = self.run_prepared(limits, watch);
        if answer != FloatSolved::Grew {
            return answer;
        }
        if self.is_careful {
            return self.run_stricter(limits, watch);
        }
        self.run_above(LEAST_PIVOT, limits, watch)
    }

    /// Sets what further runs take for 0.
    pub fn set_tolerances(&mut self, tolerances: Tolerances) {
        self.tolerances = tolerances;
    }

    /// Returns what runs take for 0.
    pub fn tolerances(&self) -> Tolerances {
        self.tolerances
    }

    /// Runs, and writes values and prices. The watch is asked before each eighth step; where it is over the
    /// run ends as if its steps were taken.
    pub fn run<W: Watch>(&mut self, limits: Limits, watch: &W) -> FloatSolved {
        let answer = self.run_again(limits, watch);
        self.answer();
        answer
    }
}
