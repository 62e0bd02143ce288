//! Chunks, fixings, and how a dive ends.

use crate::exchanging::exchange;
use crate::growing::grow;
use crate::narrowing::Narrower;
use crate::volume::Volume;
use crate::widest::Widest;
use model_rosters::Memory;
use search_hole_passes::{
    HoleRoster, NEAR, Part, Passer, Site, greater, lesser, of_cost, of_count,
};
use search_watch::Watch;
use std::alloc::Global;

/// How many passes are taken between two looks at the arcs, and at the watch.
const CHUNK: u32 = 30;

/// After so many chunks the first tree is fixed.
const CHUNKS: u32 = 10;

/// Trees at least so wide are all fixed at once.
const WIDE: f64 = 0.75;

/// Trees at least so wide are fixed where none is wide, up to a quarter of all.
const HALF: f64 = 0.5;

/// The least width of a tree that is fixed.
const LEAST: f64 = 0.004;

/// At most so many trees are fixed at once.
const MOST_FIXED: u32 = 64;

/// The factor of a step after a tree was fixed, at least.
const AGAIN: f64 = 0.02;

/// How a dive ends.
#[derive(Clone, Copy, PartialEq, Eq, Drop)]
pub enum HoleEnd {
    /// No roster with the trees that stay costs less.
    Cut,
    /// None was found, or the watch was over.
    Failed,
    /// The roster has as many of each team as it may.
    Whole,
}

/// How many trees were fixed, and how many of them were wide.
#[derive(Clone, Copy, Drop)]
struct Fixed {
    all: u32,
    wide: u32,
}

impl Fixed {
    /// Says whether a tree so wide is fixed too, where the mean has so many trees.
    fn takes(self, width: f64, total: f64) -> bool {
        width >= WIDE
            || (self.all == 0 && width >= LEAST)
            || (self.wide == 0 && width >= HALF && of_count(self.all) < total / 4.0)
    }

    /// Counts a tree so wide.
    fn counted(self, width: f64) -> Fixed {
        let wide = if width >= WIDE { 1 } else { 0 };
        Fixed {
            all: self.all.saturating_add(1),
            wide: self.wide.saturating_add(wide),
        }
    }
}

/// What dives work on.
#[derive(Drop)]
pub struct Dive {
    /// The arcs that dives begin with.
    base: Part,
    part: Part,
    pub passer: Passer,
    pub volume: Volume,
    narrower: Narrower,
    widest: Widest,
    /// How many passes are taken after trees were fixed.
    pub step: u32,
}

impl Dive {
    /// Returns what dives on a graph work on. All great memory is taken here.
    ///
    /// # Errors
    ///
    /// `Memory` where memory runs out.
    pub fn new(alloc: Global, site: Site) -> Result<Dive, Memory> {
        let passer = Passer::new(alloc, site.instance, site.graph)?;
        let volume = Volume::new(alloc, site)?;
        let narrower = Narrower::new(alloc, site.graph)?;
        let widest = Widest::new(alloc, site.graph)?;
        let mut base = Part::new(alloc);
        base.copy_from(&site.graph.all)?;
        let mut part = Part::new(alloc);
        part.copy_from(&site.graph.all)?;
        Ok(Dive {
            base,
            part,
            passer,
            volume,
            narrower,
            widest,
            step: 0,
        })
    }

    /// Makes all arcs those that dives begin with.
    ///
    /// # Errors
    ///
    /// `Memory` where memory runs out.
    pub fn widen(&mut self, site: Site) -> Result<(), Memory> {
        self.base.copy_from(&site.graph.all)
    }

    /// Leaves out of the arcs that dives begin with those that no roster has which costs less than this, by
    /// the prices with which dives begin. Where that leaves none they stay.
    ///
    /// # Errors
    ///
    /// `Memory` where memory runs out.
    pub fn narrow_to(&mut self, alloc: Global, site: Site, cost: u64) -> Result<(), Memory> {
        let empty = HoleRoster::new(alloc, site.instance)?;
        self.start(site, &empty)?;
        let limit = of_cost(cost) - 1.0 + NEAR;
        let gap = limit - self.volume.bound;
        let teams = self.volume.teams.as_slice();
        if self
            .narrower
            .narrow(site.graph, &mut self.part, teams, gap, &mut self.passer)
        {
            self.base.copy_from(&self.part)?;
        }
        Ok(())
    }

    /// Begins with what a roster leaves, over the arcs that dives begin with.
    fn start(&mut self, site: Site, roster: &HoleRoster) -> Result<(), Memory> {
        self.part.copy_from(&self.base)?;
        self.volume
            .start(site, roster, &self.part, &mut self.passer)
    }

    /// Takes so many passes at most, until the prices show so much. Says whether they do.
    fn run(&mut self, site: Site, passes: u32, limit: f64) -> Result<bool, Memory> {
        self.volume
            .run(site.graph, &self.part, passes, limit, &mut self.passer)
    }

    /// Finds good prices for a roster from nothing that is hoped to cost so much, in so many chunks of
    /// passes, and makes them those with which dives begin. Returns what they show.
    ///
    /// # Errors
    ///
    /// `Memory` where memory runs out.
    pub fn find_prices<W: Watch>(
        &mut self,
        site: Site,
        empty: &HoleRoster,
        cost: u64,
        chunks: u32,
        watch: &W,
    ) -> Result<f64, Memory> {
        self.start(site, empty)?;
        self.volume.target = of_cost(cost);
        for _ in 0..chunks {
            if watch.is_over() || self.run(site, CHUNK, of_cost(cost))? {
                break;
            }
        }
        self.volume.keep_best();
        Ok(self.volume.bound)
    }

    /// Leaves out the arcs whose trees all cost too much. Says whether any is left.
    fn fix_arcs(&mut self, site: Site, limit: f64) -> Result<bool, Memory> {
        self.volume
            .ask_again(site.graph, &self.part, &mut self.passer)?;
        let gap = limit - self.volume.bound;
        let teams = self.volume.teams.as_slice();
        Ok(
            self.narrower
                .narrow(site.graph, &mut self.part, teams, gap, &mut self.passer),
        )
    }

    /// Takes chunks of passes, after each of which arcs are left out. Says whether a roster may cost less
    /// still.
    fn take_chunks<W: Watch>(&mut self, site: Site, limit: f64, watch: &W) -> Result<bool, Memory> {
        for _ in 0..CHUNKS {
            if watch.is_over() {
                return Ok(true);
            }
            if self.run(site, CHUNK, limit)? || !self.fix_arcs(site, limit)? {
                return Ok(false);
            }
        }
        Ok(true)
    }

    /// Returns how many trees the mean has.
    fn total(&self) -> f64 {
        let mut total = 0.0;
        if let Some(row) = self.part.rows.as_slice().last() {
            for arc in self.part.arcs_of(row) {
                total += self.volume.flow.at(arc.arc);
            }
        }
        total
    }

    /// Takes the widest tree off what is to be found, and adds it to the roster.
    fn fix(&mut self, alloc: Global, roster: &mut HoleRoster) -> Result<(), Memory> {
        let tree = &self.widest.tree;
        for &cell in tree.cells.as_slice() {
            if let Some(state) = self.volume.states.as_mut_slice().get_mut(cell as usize) {
                state.fix();
            }
        }
        self.volume.flow.take(tree.arcs.as_slice());
        if let Some(team) = self.volume.teams.as_mut_slice().get_mut(tree.team) {
            team.fix();
        }
        roster.push(tree.copied(alloc)?)
    }

    /// Fixes wide trees, and says whether it fixed any.
    fn fix_some(
        &mut self,
        alloc: Global,
        site: Site,
        roster: &mut HoleRoster,
    ) -> Result<bool, Memory> {
        let total = self.total();
        let mut fixed = Fixed { all: 0, wide: 0 };
        for _ in 0..MOST_FIXED {
            if self.volume.is_full() || self.volume.is_settled() {
                break;
            }
            let width = self
                .widest
                .find(site.graph, &self.part, &self.volume, &mut self.passer)?;
            if width <= 0.0 || !fixed.takes(width, total) {
                break;
            }
            fixed = fixed.counted(width);
            self.fix(alloc, roster)?;
        }
        Ok(fixed.all > 0)
    }

    /// Takes passes after trees were fixed. Says whether a roster may cost less than the limit still.
    fn go_on(&mut self, site: Site, limit: f64) -> Result<bool, Memory> {
        self.volume
            .ask_again(site.graph, &self.part, &mut self.passer)?;
        self.aim(limit);
        self.volume.factor = greater(self.volume.factor, AGAIN);
        let is_cut = self.run(site, self.step, limit)?;
        Ok(!is_cut)
    }

    /// Sets what is hoped to be shown: no more than the limit.
    fn aim(&mut self, limit: f64) {
        self.volume.target = lesser(limit, self.volume.bound * 1.02 + 10.0);
    }

    /// Fixes trees until none is wide enough. Says whether a roster may cost less than the limit still.
    fn fix_all<W: Watch>(
        &mut self,
        alloc: Global,
        site: Site,
        limit: f64,
        roster: &mut HoleRoster,
        watch: &W,
    ) -> Result<bool, Memory> {
        for _ in 0..site.instance.heads_max {
            if watch.is_over() {
                return Ok(false);
            }
            if !self.fix_some(alloc, site, roster)? || self.volume.is_full() {
                return Ok(true);
            }
            let left = limit - of_cost(roster.fixed_cost());
            if !self.go_on(site, left)? {
                return Ok(false);
            }
        }
        Ok(true)
    }

    /// Completes a roster, so that it costs less than this.
    ///
    /// # Errors
    ///
    /// `Memory` where memory runs out.
    pub fn dive<W: Watch>(
        &mut self,
        alloc: Global,
        site: Site,
        cost: u64,
        roster: &mut HoleRoster,
        watch: &W,
    ) -> Result<HoleEnd, Memory> {
        let limit = of_cost(cost) - 1.0 + NEAR;
        let left = limit - of_cost(roster.fixed_cost());
        self.start(site, roster)?;
        self.aim(left);
        if !self.take_chunks(site, left, watch)? {
            return Ok(HoleEnd::Cut);
        }
        if !self.fix_all(alloc, site, limit, roster, watch)? {
            return Ok(HoleEnd::Failed);
        }
        grow(alloc, site, &self.part, &mut self.passer, roster)?;
        if !roster.is_staffed(site.graph) {
            return Ok(HoleEnd::Failed);
        }
        Ok(HoleEnd::Whole)
    }

    /// Exchanges the trees of a roster from a place on one by one.
    ///
    /// # Errors
    ///
    /// `Memory` where memory runs out.
    pub fn exchange(
        &mut self,
        alloc: Global,
        site: Site,
        first: usize,
        roster: &mut HoleRoster,
    ) -> Result<(), Memory> {
        exchange(alloc, site, first, &self.base, &mut self.passer, roster)
    }
}
