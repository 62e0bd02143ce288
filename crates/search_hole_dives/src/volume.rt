//! The volume algorithm.

use crate::cells::{
    CellState, add_to_last, add_to_mean, begun_cell, blank_cell, clear_last, keep_tried, rises,
    set_gaps, share, shrink, step_along, try_best, worth,
};
use crate::flow::Flow;
use model_rosters::Memory;
use search_hole_passes::{
    HoleGraph, HoleRoster, HoleTeam, HoleTree, NEVER, Part, Passer, Site, Way, greater, lesser,
    of_count,
};
use std::alloc::Global;

/// The factor of the first step, the greatest one and the least one.
const FIRST_FACTOR: f64 = 0.05;

const MOST_FACTOR: f64 = 2.0;

const LEAST_FACTOR: f64 = 1.0e-4;

/// After so many passes that show no more the steps become shorter.
const MOST_IDLE: u32 = 20;

/// Below this sum of squares nothing lacks.
const LEAST_SQUARES: f64 = 1.0e-9;

/// What is asked of a team.
#[derive(Drop)]
pub struct Asked {
    /// The least number of further employees, and the greatest.
    pub least: u32,
    pub most: u32,
    /// How many employees have the tree.
    heads: f64,
    /// The tree of least sum at the last prices; nothing where no employee has it.
    tree: HoleTree,
}

/// The volume algorithm over what a roster leaves: prices of the cells that show a bound, and a mean of
/// trees.
#[derive(Drop)]
pub struct Volume {
    pub states: Vec<CellState>,
    pub teams: Vec<Asked>,
    pub flow: Flow,
    /// What the best prices show.
    pub bound: f64,
    /// What is hoped to be shown.
    pub target: f64,
    /// By how much of the way to the target a step goes.
    pub factor: f64,
    /// How many passes have shown no more.
    idle: u32,
    /// The prices with which it begins.
    pub starts: Vec<f64>,
}

impl Asked {
    /// Returns a team of which nothing is asked.
    fn new(alloc: Global) -> Asked {
        Asked {
            least: 0,
            most: 0,
            heads: 0.0,
            tree: HoleTree::new(alloc),
        }
    }

    /// Begins with what so many employees leave.
    fn begin(&mut self, team: &HoleTeam, heads: u32) {
        self.least = team.least.saturating_sub(heads);
        self.most = team.most.saturating_sub(heads);
    }

    /// Takes one employee off.
    pub fn fix(&mut self) {
        self.least = self.least.saturating_sub(1);
        self.most = self.most.saturating_sub(1);
    }

    /// Leaves the tree of least sum after a pass, and returns what the team costs.
    fn ask(
        &mut self,
        graph: &HoleGraph,
        part: &Part,
        place: usize,
        passer: &mut Passer,
    ) -> Result<f64, Memory> {
        let sum = passer.lead(graph, part, place);
        let heads = if sum < 0.0 { self.most } else { self.least };
        self.heads = of_count(heads);
        if heads == 0 || sum >= NEVER {
            self.tree.clear();
        } else {
            passer.write(graph, part, Way::Sums, &mut self.tree)?;
        }
        Ok(if heads == 0 { 0.0 } else { sum * self.heads })
    }
}

/// Returns so many teams of which nothing is asked.
fn blank_teams(alloc: Global, count: usize) -> Result<Vec<Asked>, Memory> {
    let mut teams = Vec::new(alloc);
    for _ in 0..count {
        teams.push(Asked::new(alloc))?;
    }
    Ok(teams)
}

impl Volume {
    /// Returns the volume algorithm on a graph, before it has begun.
    ///
    /// # Errors
    ///
    /// `Memory` where memory runs out.
    pub fn new(alloc: Global, site: Site) -> Result<Volume, Memory> {
        let cells = site.instance.cells.len();
        Ok(Volume {
            states: vec![in alloc; blank_cell(); cells]?,
            teams: blank_teams(alloc, site.graph.teams.len())?,
            flow: Flow::new(alloc, site.graph.all.arcs.len())?,
            bound: 0.0,
            target: 0.0,
            factor: FIRST_FACTOR,
            idle: 0,
            starts: vec![in alloc; 0.0; cells]?,
        })
    }

    /// Begins with what a roster leaves.
    fn begin(&mut self, site: Site, roster: &HoleRoster) {
        let teams = site.graph.teams.as_slice().iter();
        for (place, (asked, team)) in self.teams.as_mut_slice().iter_mut().zip(teams).enumerate() {
            asked.begin(team, roster.heads_of(place));
        }
        let known = roster.counts.as_slice().iter().zip(self.starts.as_slice());
        let cells = site.instance.cells.as_slice().iter().zip(known);
        for (state, (cell, (count, price))) in self.states.as_mut_slice().iter_mut().zip(cells) {
            *state = begun_cell(cell, *count, *price);
        }
        self.factor = FIRST_FACTOR;
        self.idle = 0;
    }

    /// Passes at the tried prices, leaves the trees of least sums, and returns what the prices show.
    fn ask(&mut self, graph: &HoleGraph, part: &Part, passer: &mut Passer) -> Result<f64, Memory> {
        passer.pass(graph, part);
        let mut bound = worth(self.states.as_slice());
        for (place, team) in self.teams.as_mut_slice().iter_mut().enumerate() {
            bound += team.ask(graph, part, place, passer)?;
        }
        Ok(bound)
    }

    /// Passes at the best prices.
    ///
    /// # Errors
    ///
    /// `Memory` where memory runs out.
    pub fn ask_again(
        &mut self,
        graph: &HoleGraph,
        part: &Part,
        passer: &mut Passer,
    ) -> Result<(), Memory> {
        try_best(self.states.as_mut_slice(), passer.gains.as_mut_slice());
        self.bound = self.ask(graph, part, passer)?;
        Ok(())
    }

    /// Begins with what a roster leaves, and passes at the first prices.
    ///
    /// # Errors
    ///
    /// `Memory` where memory runs out.
    pub fn start(
        &mut self,
        site: Site,
        roster: &HoleRoster,
        part: &Part,
        passer: &mut Passer,
    ) -> Result<(), Memory> {
        self.begin(site, roster);
        self.ask_again(site.graph, part, passer)?;
        self.flow.clear();
        self.mix_in(1.0);
        Ok(())
    }

    /// Adds a share of the last trees to the mean.
    fn mix_in(&mut self, share: f64) {
        for team in self.teams.as_slice() {
            let weight = share * team.heads;
            add_to_mean(
                self.states.as_mut_slice(),
                team.tree.cells.as_slice(),
                weight,
            );
            self.flow.add(team.tree.arcs.as_slice(), weight);
        }
    }

    /// Gives the last trees their share of the mean.
    fn mix(&mut self, share: f64) {
        self.flow.shrink(1.0 - share);
        shrink(self.states.as_mut_slice(), 1.0 - share);
        self.mix_in(share);
    }

    /// Sets how many work at each cell by the last trees.
    fn set_last(&mut self) {
        clear_last(self.states.as_mut_slice());
        for team in self.teams.as_slice() {
            add_to_last(
                self.states.as_mut_slice(),
                team.tree.cells.as_slice(),
                team.heads,
            );
        }
    }

    /// Returns how far the next step goes along gaps with this sum of squares.
    fn step(&self, squares: f64) -> f64 {
        let near = self.bound + greater(self.bound, 0.0 - self.bound) * 0.002 + 0.5;
        let target = greater(self.target, near);
        self.factor * (target - self.bound) / squares
    }

    /// Keeps the tried prices where they show more, and makes steps longer or shorter.
    fn judge(&mut self, bound: f64) {
        if bound > self.bound {
            self.bound = bound;
            keep_tried(self.states.as_mut_slice());
            self.idle = 0;
            if rises(self.states.as_slice()) {
                self.factor = lesser(self.factor * 1.1, MOST_FACTOR);
            }
            return;
        }
        self.idle = self.idle.saturating_add(1);
        if self.idle >= MOST_IDLE {
            self.idle = 0;
            self.factor = greater(self.factor * 0.66, LEAST_FACTOR);
        }
    }

    /// Takes a pass at prices a step away. Says whether it did: where nothing lacks there is no step.
    fn take_step(
        &mut self,
        graph: &HoleGraph,
        part: &Part,
        passer: &mut Passer,
    ) -> Result<bool, Memory> {
        let squares = set_gaps(self.states.as_mut_slice());
        if squares < LEAST_SQUARES {
            return Ok(false);
        }
        let step = self.step(squares);
        step_along(
            self.states.as_mut_slice(),
            step,
            passer.gains.as_mut_slice(),
        );
        let bound = self.ask(graph, part, passer)?;
        self.set_last();
        let share = share(self.states.as_slice());
        self.mix(share);
        self.judge(bound);
        Ok(true)
    }

    /// Takes so many passes at most, until the prices show so much. Says whether they do.
    ///
    /// # Errors
    ///
    /// `Memory` where memory runs out.
    pub fn run(
        &mut self,
        graph: &HoleGraph,
        part: &Part,
        passes: u32,
        limit: f64,
        passer: &mut Passer,
    ) -> Result<bool, Memory> {
        for _ in 0..passes {
            if self.bound >= limit {
                return Ok(true);
            }
            if !self.take_step(graph, part, passer)? {
                return Ok(false);
            }
        }
        Ok(self.bound >= limit)
    }

    /// Says whether no team may have a further employee.
    pub fn is_full(&self) -> bool {
        for team in self.teams.as_slice() {
            if team.most > 0 {
                return false;
            }
        }
        true
    }

    /// Says whether nothing is needed: no cell lacks an employee, and no team does.
    pub fn is_settled(&self) -> bool {
        for team in self.teams.as_slice() {
            if team.least > 0 {
                return false;
            }
        }
        for state in self.states.as_slice() {
            if state.need > 0.0 {
                return false;
            }
        }
        true
    }

    /// Makes the best prices those with which it begins.
    pub fn keep_best(&mut self) {
        for (start, state) in self
            .starts
            .as_mut_slice()
            .iter_mut()
            .zip(self.states.as_slice())
        {
            *start = state.best;
        }
    }
}
