//! How far a pass goes.

use crate::volume::float::{Cover64, Price64, Share64, bounded, greater, lesser};

/// The factor of the first step, and that of the first one from given prices.
const FIRST: Share64 = 0.1;

const FIRST_FROM: Share64 = 0.01;

/// What the factor is multiplied by where the bound rises and a further step would do, and its greatest
/// value.
const FASTER: Share64 = 1.1;

const MOST: Share64 = 2.0;

/// What it is multiplied by where the bound has not risen in so many passes.
const SLOWER: Share64 = 0.66;

const PATIENCE: u32 = 20;

/// The factor below which no pass is worth its time.
const LEAST: Share64 = 1e-5;

/// The least factor from given prices, where the passes are few and none is to be without a step.
const LEAST_FROM: Share64 = 5e-4;

/// The greatest share of a tree in the mean at first, and the least value of that.
const MOST_SHARE: Share64 = 0.1;

const LAST_SHARE: Share64 = 0.005;

/// What it is multiplied by where the bound has risen by less than a part of itself in so many passes.
const CALMER: Share64 = 0.7;

const PART: Share64 = 1e-3;

const PERIOD: u32 = 100;

/// Sums of squares below this are none.
const TINY: Cover64 = 1e-12;

/// How far a pass goes.
#[derive(Drop)]
pub(crate) struct Pace {
    /// The factor of a step.
    factor: Share64,
    /// The least factor.
    least: Share64,
    /// How many passes were taken since the bound rose, or the factor fell.
    idle: u32,
    /// What the bound is hoped to reach.
    target: Price64,
    /// What is added to that after the first pass.
    margin: Price64,
    /// The greatest share of a tree in the mean.
    most_share: Share64,
    /// The bound when that share was looked at last.
    earlier: Price64,
    /// How many passes were taken.
    pub(crate) passes: u32,
}

impl Pace {
    /// Returns the pace of a first pass, from given prices or not. A target without prices is this much
    /// higher at first.
    pub(crate) fn new(has_prices: bool, margin: Price64) -> Pace {
        Pace {
            factor: if has_prices { FIRST_FROM } else { FIRST },
            least: if has_prices { LEAST_FROM } else { 0.0 },
            idle: 0,
            target: 0.0,
            margin: if has_prices { 0.0 } else { margin },
            most_share: MOST_SHARE,
            earlier: 0.0,
            passes: 0,
        }
    }

    /// Returns how far to step along gaps with this sum of squares from the prices of the best bound.
    pub(crate) fn step(&self, best: Price64, squares: Cover64) -> Share64 {
        if self.passes == 0 || squares < TINY {
            return 0.0;
        }
        self.factor * (self.target - best) / squares
    }

    /// Returns the share of a tree in the mean, where this one is best.
    pub(crate) fn share(&self, best: Option<Share64>) -> Share64 {
        if self.passes == 0 {
            return 1.0;
        }
        match best {
            Some(share) => bounded(share, self.most_share / 10.0, self.most_share),
            None => self.most_share,
        }
    }

    /// Notes that the bound rose, and where a further step would lead.
    pub(crate) fn rose(&mut self, rise: Cover64) {
        self.idle = 0;
        if rise >= 0.0 {
            self.factor = lesser(self.factor * FASTER, MOST);
        }
    }

    /// Notes that the bound did not rise.
    pub(crate) fn stayed(&mut self) {
        self.idle = self.idle.saturating_add(1);
        if self.idle >= PATIENCE {
            self.idle = 0;
            self.factor = greater(self.factor * SLOWER, self.least);
        }
    }

    /// Sets the target anew where the bound comes near to it.
    fn set_target(&mut self, best: Price64) {
        if self.passes == 0 || best > self.target * 0.95 {
            self.target = greater(best.abs(), 10.0) * 1.05 + self.margin;
            self.margin = 0.0;
        }
    }

    /// Lets trees have smaller shares where the bound rises little.
    fn set_most_share(&mut self, best: Price64) {
        if self.passes % PERIOD != 0 {
            return;
        }
        if best - self.earlier < PART * best.abs() {
            self.most_share = greater(self.most_share * CALMER, LAST_SHARE);
        }
        self.earlier = best;
    }

    /// Counts a pass, after which the best bound is this, and says whether a further one is worth its time.
    pub(crate) fn count(&mut self, best: Price64) -> bool {
        self.set_target(best);
        self.passes = self.passes.saturating_add(1);
        self.set_most_share(best);
        self.factor >= LEAST
    }
}
