//! Holes one after another, and their budget.

use crate::ranking::Ranking;
use crate::sizes::HoleSize;
use model_rosters::Memory;
use search_hole_dives::{Dive, HoleEnd};
use search_hole_passes::{HoleRoster, HoleTree, Site};
use search_watch::Watch;
use std::alloc::Global;

/// How many passes are taken after trees of a hole were fixed.
const STEP: u32 = 100;

/// At most so many holes are opened one after another.
const MOST_HOLES: u32 = 100_000;

/// One tree in so many goes where a roster is shaken, and at least so many.
const SHAKEN: usize = 3;

const FEWEST_SHAKEN: usize = 4;

/// A shaken roster may cost one in so many more.
const DEARER: u64 = 64;

/// What a hole gains.
#[derive(Clone, Copy, Drop)]
enum Gain {
    /// Nothing.
    None,
    /// The roster becomes better.
    Own,
    /// It becomes better than any known one.
    Best,
}

/// Returns what a hole gains that makes a roster of this cost one of that cost, where the best known one
/// costs so much.
fn gain_of(before: u64, after: u64, known: u64) -> Gain {
    if after >= before {
        Gain::None
    } else if after >= known {
        Gain::Own
    } else {
        Gain::Best
    }
}

/// How much work holes may take, by that which was taken since the search began.
#[derive(Clone, Copy, Drop)]
pub(crate) struct Budget {
    /// How much was taken when the holes began.
    begun: u64,
    /// How much they may take where they gain nothing.
    own: u64,
    /// How much they may take now.
    allowed: u64,
    /// How many further holes in a row may have no gain.
    patience: u32,
    /// How many they are after a hole with gain.
    fresh: u32,
    /// What the best known roster costs.
    known: u64,
}

impl Budget {
    /// Returns a budget of so much work, after so much was taken, and of so many holes in a row without gain,
    /// where the best known roster costs so much.
    pub(crate) fn new(begun: u64, own: u64, patience: u32, known: u64) -> Budget {
        Budget {
            begun,
            own,
            allowed: own,
            patience,
            fresh: patience,
            known,
        }
    }

    /// Gives the patience back, where a roster that costs so much is known.
    pub(crate) fn begin_anew(&mut self, cost: u64) {
        self.patience = self.fresh;
        self.known = self.known.min(cost);
    }

    /// Says whether all work is taken, when so much was.
    pub(crate) fn is_used(&self, work: u64) -> bool {
        work.saturating_sub(self.begun) >= self.allowed
    }

    /// Says whether no further hole is opened, when so much work was taken.
    fn is_spent(&self, work: u64) -> bool {
        self.patience == 0 || self.is_used(work)
    }

    /// Notes a hole after which so much work was taken: one with gain gives the patience back, and one that
    /// makes the roster better than any known one allows further work.
    fn note(&mut self, work: u64, gain: Gain) {
        match gain {
            Gain::None => {
                self.patience = self.patience.saturating_sub(1);
                return;
            }
            Gain::Own => {
                self.patience = self.fresh;
                return;
            }
            Gain::Best => self.patience = self.fresh,
        }
        let taken = work.saturating_sub(self.begun);
        let further = (self.own / 2).max(taken / 2);
        let most = self.own.saturating_mul(3);
        self.allowed = taken.saturating_add(further).min(most).max(self.allowed);
    }
}

/// What holes are opened with.
#[derive(Drop)]
pub(crate) struct Tools {
    pub ranking: Ranking,
    pub dive: Dive,
    /// The trees that went last.
    pub gone: Vec<HoleTree>,
}

/// Puts back what went, in place of what came behind so many trees.
fn put_back(roster: &mut HoleRoster, first: usize, gone: &mut Vec<HoleTree>) -> Result<(), Memory> {
    roster.shorten(first);
    for _ in 0..gone.len() {
        if let Some(tree) = gone.pop() {
            roster.push(tree)?;
        }
    }
    Ok(())
}

/// What became of a hole.
#[derive(Clone, Copy, Drop)]
struct HoleResult {
    end: HoleEnd,
    /// What the roster costs then.
    cost: u64,
}

/// The sizes of the two kinds of holes.
#[derive(Clone, Copy, Drop)]
struct Sizes {
    small: HoleSize,
    great: HoleSize,
}

impl Sizes {
    /// Returns the size of a kind.
    fn of(&self, is_great: bool) -> HoleSize {
        if is_great { self.great } else { self.small }
    }

    /// Sets the size of a kind.
    fn set(&mut self, is_great: bool, size: HoleSize) {
        if is_great {
            self.great = size;
        } else {
            self.small = size;
        }
    }

    /// Learns from a hole of a kind in a roster that costed so much: where it was cut the next ones are
    /// greater, where it gained they stay, and else they are smaller.
    fn learn(&mut self, is_great: bool, cost: u64, filled: HoleResult) {
        let size = self.of(is_great);
        if filled.end == HoleEnd::Cut {
            self.set(is_great, size.grown());
        } else if filled.cost >= cost {
            self.set(is_great, size.shrunk());
        }
    }
}

/// Solves a hole whose trees are gone: returns what the roster costs then, where it is whole.
fn fill<W: Watch>(
    alloc: Global,
    site: Site,
    cost: u64,
    dive: &mut Dive,
    roster: &mut HoleRoster,
    watch: &W,
) -> Result<HoleResult, Memory> {
    let first = roster.trees.len();
    let end = dive.dive(alloc, site, cost, roster, watch)?;
    if end != HoleEnd::Whole || watch.is_over() {
        return Ok(HoleResult {
            end,
            cost: u64::MAX,
        });
    }
    dive.exchange(alloc, site, first, roster)?;
    Ok(HoleResult {
        end,
        cost: roster.cost(site.instance),
    })
}

/// Opens one hole of so many trees in a roster that costs so much, which stays as it is where it would cost
/// more.
fn open_one<W: Watch>(
    alloc: Global,
    site: Site,
    cost: u64,
    count: usize,
    tools: &mut Tools,
    roster: &mut HoleRoster,
    watch: &W,
) -> Result<HoleResult, Memory> {
    tools.gone.clear();
    let prices = tools.dive.volume.starts.as_slice();
    let gone = &mut tools.gone;
    tools
        .ranking
        .take_out(site.instance, prices, count, roster, gone)?;
    let first = roster.trees.len();
    let filled = fill(alloc, site, cost, &mut tools.dive, roster, watch)?;
    if filled.cost > cost {
        put_back(roster, first, &mut tools.gone)?;
    }
    Ok(filled)
}

/// Opens holes in a roster until it costs no more than the goal, the budget is used up, or too many in a row
/// gain nothing. Where the watch is over it opens no further one.
///
/// # Errors
///
/// `Memory` where memory runs out.
pub(crate) fn open_round<W: Watch>(
    alloc: Global,
    site: Site,
    goal: u64,
    budget: &mut Budget,
    tools: &mut Tools,
    roster: &mut HoleRoster,
    watch: &W,
) -> Result<(), Memory> {
    let mut sizes = Sizes {
        small: HoleSize::small(),
        great: HoleSize::great(),
    };
    let mut cost = roster.cost(site.instance);
    tools.dive.step = STEP;
    tools.dive.narrow_to(alloc, site, cost)?;
    for _ in 0..MOST_HOLES {
        if watch.is_over() || cost <= goal || budget.is_spent(tools.dive.passer.work) {
            break;
        }
        if roster.trees.is_empty() {
            break;
        }
        let is_great = tools.ranking.draws.below(2) == 1;
        let count = sizes.of(is_great).draw(&mut tools.ranking.draws);
        let filled = open_one(alloc, site, cost, count, tools, roster, watch)?;
        sizes.learn(is_great, cost, filled);
        let gain = gain_of(cost, filled.cost, budget.known);
        budget.note(tools.dive.passer.work, gain);
        if filled.cost < cost {
            cost = filled.cost;
            tools.dive.narrow_to(alloc, site, cost)?;
        }
    }
    Ok(())
}

/// Takes a third of the trees out of a roster that costs so much, and solves what they leave, whatever it
/// costs up to one in 64 more. Says whether it did.
fn shake<W: Watch>(
    alloc: Global,
    site: Site,
    cost: u64,
    tools: &mut Tools,
    roster: &mut HoleRoster,
    watch: &W,
) -> Result<bool, Memory> {
    let count = (roster.trees.len() / SHAKEN).max(FEWEST_SHAKEN);
    tools.gone.clear();
    let prices = tools.dive.volume.starts.as_slice();
    let gone = &mut tools.gone;
    tools
        .ranking
        .take_out(site.instance, prices, count, roster, gone)?;
    let most = cost.saturating_add(cost / DEARER);
    let filled = fill(alloc, site, most, &mut tools.dive, roster, watch)?;
    Ok(filled.end == HoleEnd::Whole && filled.cost < u64::MAX)
}

/// Opens holes in a roster after it was shaken. It becomes the roster where it costs no more than before.
///
/// # Errors
///
/// `Memory` where memory runs out.
pub(crate) fn open_shaken<W: Watch>(
    alloc: Global,
    site: Site,
    goal: u64,
    budget: &mut Budget,
    tools: &mut Tools,
    roster: &mut HoleRoster,
    watch: &W,
) -> Result<(), Memory> {
    let cost = roster.cost(site.instance);
    let mut other = roster.copied(alloc)?;
    budget.begin_anew(cost);
    if shake(alloc, site, cost, tools, &mut other, watch)? {
        open_round(alloc, site, goal, budget, tools, &mut other, watch)?;
        if other.is_staffed(site.graph) && other.cost(site.instance) <= cost {
            *roster = other;
        }
    }
    Ok(())
}
