//! The public calls of a search for rosters by holes.

ghost use Rattle.std.specs.Prelude.{IfOk, IfSome};
ghost use Rattle.search_holes.specs.Found.{AreSoundShifts};

use crate::drawing::Draws;
use crate::holes::{Budget, Tools, open_round, open_shaken};
use crate::ranking::Ranking;
use crate::rests::Rests;
use crate::sound::sound_shifts;
use crate::task::HoleTask;
use crate::words::read_words;
use model_rosters::{Instance, List, Memory, Prices, Shift};
use search_hole_dives::{Dive, HoleEnd};
use search_hole_passes::{HoleGraph, HoleRoster, Site, cost_of, whole};
use search_watch::Watch;
use std::alloc::Global;
use std::num::nearest_i64_to_f64;
use tree_graph::Graph;

/// So many chunks of 30 passes look for prices where none are known.
const PRICE_CHUNKS: u32 = 67;

/// The turn by which holes before the first master are drawn.
const FIRST_DRAWS: u32 = 1_000_000;

/// How much work holes may take before the first master, at the first node, and at others, in passes over the
/// whole graph.
const PASSES_BEFORE: u64 = 6_000;

const PASSES_FIRST: u64 = 30_000;

const PASSES_LATER: u64 = 3_000;

/// After so many holes in a row without gain no further one is opened in a roster at first, and at later
/// nodes.
const FIRST_PATIENCE: u32 = 40;

const PATIENCE: u32 = 20;

/// How many dives from nothing are made at the first node before holes are opened.
const DIVES: u32 = 3;

/// How often holes begin anew at the first node, at most.
const MOST_ROUNDS: u32 = 1_000;

/// A further dive from nothing takes so many passes after trees were fixed, and by chance up to so many more.
const LEAST_STEP: u32 = 60;

const FURTHER_STEP: u32 = 200;

/// A known roster is near where what it costs above the bound is less than one in so many.
const NEAR_PART: u64 = 256;

/// The first dive looks for a roster that costs one in so many more than the first prices show, at most.
const HOPED_PART: u64 = 64;

/// By so much a bound in floats may be too great.
const SLACK: f64 = 1.0e-3;

/// What a roster costs of which nothing is hoped, at most.
const MOST_COST: u64 = 1 << 40;

/// A search for rosters by holes: the graph of a day in floats, which is made once, and what is worked on.
#[derive(Drop)]
pub struct HoleSearch {
    graph: HoleGraph,
    tools: Tools,
    rests: Rests,
}

/// Returns what holes are opened with.
fn tools_for(alloc: Global, site: Site) -> Result<Tools, Memory> {
    let ranking = Ranking::new(alloc, site.instance)?;
    let dive = Dive::new(alloc, site)?;
    Ok(Tools {
        ranking,
        dive,
        gone: Vec::new(alloc),
    })
}

/// Returns how many passes a dive from nothing takes after trees were fixed.
fn step_of(number: u32) -> u32 {
    match number {
        0 => 100,
        1 => 200,
        _ => 400,
    }
}

/// Returns a roster by a dive from nothing.
fn fresh_roster<W: Watch>(
    alloc: Global,
    site: Site,
    step: u32,
    dive: &mut Dive,
    watch: &W,
) -> Result<HoleRoster, Memory> {
    let mut roster = HoleRoster::new(alloc, site.instance)?;
    dive.step = step;
    let end = dive.dive(alloc, site, MOST_COST, &mut roster, watch)?;
    for _ in 0..2u32 {
        if end == HoleEnd::Whole && !watch.is_over() {
            dive.exchange(alloc, site, 0, &mut roster)?;
        }
    }
    Ok(roster)
}

/// Says whether a roster is better than another one.
fn is_better(site: Site, roster: &HoleRoster, other: &HoleRoster) -> bool {
    if !roster.is_staffed(site.graph) {
        return false;
    }
    !other.is_staffed(site.graph) || roster.cost(site.instance) < other.cost(site.instance)
}

/// Says whether a roster costs no more than a goal.
fn reaches(site: Site, roster: &HoleRoster, goal: u64) -> bool {
    roster.is_staffed(site.graph) && roster.cost(site.instance) <= goal
}

/// Makes the better one of a roster and of a dive from nothing the roster.
fn dive_afresh<W: Watch>(
    alloc: Global,
    site: Site,
    step: u32,
    dive: &mut Dive,
    roster: &mut HoleRoster,
    watch: &W,
) -> Result<(), Memory> {
    let other = fresh_roster(alloc, site, step, dive, watch)?;
    if is_better(site, &other, roster) {
        *roster = other;
    }
    Ok(())
}

/// Makes the better one of a roster and of so many dives from nothing the roster.
fn dive_from_nothing<W: Watch>(
    alloc: Global,
    site: Site,
    dives: u32,
    goal: u64,
    dive: &mut Dive,
    roster: &mut HoleRoster,
    watch: &W,
) -> Result<(), Memory> {
    for number in 0..dives {
        if watch.is_over() || reaches(site, roster, goal) {
            break;
        }
        dive_afresh(alloc, site, step_of(number), dive, roster, watch)?;
    }
    Ok(())
}

/// Returns the price of a cell as a float; 0 where there is none.
fn price_at(prices: &Prices, place: usize) -> f64 {
    let Some(price) = prices.cell.as_slice().get(place) else {
        return 0.0;
    };
    let price = i64::try_from(*price).unwrap_or(0);
    let parts = i64::try_from(prices.d.max(1)).unwrap_or(i64::MAX);
    nearest_i64_to_f64(price) / nearest_i64_to_f64(parts)
}

/// Sets the prices with which dives begin.
fn set_starts(prices: &Prices, starts: &mut [f64]) {
    for (place, start) in starts.iter_mut().enumerate() {
        *start = price_at(prices, place);
    }
}

/// Returns the work of so many passes over the whole graph.
fn work_of(site: Site, passes: u64) -> u64 {
    (site.graph.all.arcs.len() as u64).saturating_mul(passes)
}

/// Returns the budget of holes that may take so many passes and are opened in the order of a turn.
fn begun(
    site: Site,
    task: &HoleTask,
    turn: u32,
    passes: u64,
    patience: u32,
    tools: &mut Tools,
) -> Budget {
    tools.ranking.draws = Draws::of_turn(turn);
    Budget::new(
        tools.dive.passer.work,
        work_of(site, passes),
        patience,
        task.cost,
    )
}

/// Returns how many passes holes may take at a later node.
fn passes_at(turn: u32) -> u64 {
    let square = u64::from(turn).saturating_mul(u64::from(turn));
    (PASSES_LATER * 8)
        .checked_div(square.saturating_add(8))
        .unwrap_or(0)
}

/// Returns a roster of these shifts; one without trees where a word has none.
fn roster_of(
    alloc: Global,
    site: Site,
    shifts: &[Shift],
    dive: &mut Dive,
) -> Result<HoleRoster, Memory> {
    let mut roster = HoleRoster::new(alloc, site.instance)?;
    if !read_words(alloc, site.graph, shifts, &mut dive.passer, &mut roster)? {
        roster.shorten(0);
    }
    Ok(roster)
}

/// Returns the shifts of a roster that costs less than this, and else none.
fn found_shifts(
    alloc: Global,
    instance: &Instance,
    graph: &HoleGraph,
    cost: u64,
    roster: &HoleRoster,
) -> Result<Option<List<Shift>>, Memory>
    ensures { IfOk result (λ found. IfSome found (AreSoundShifts instance.now)) }
{
    let own = roster.cost(instance);
    if !roster.is_staffed(graph) || own >= cost || own >= MOST_COST {
        return Ok(None);
    }
    sound_shifts(alloc, instance, graph, roster)
}

/// Makes the better one of a roster and of a dive from nothing the roster, at prices that were found: over
/// the arcs of rosters that cost little more than the goal, or where that leads to none, over all.
fn dive_first<W: Watch>(
    alloc: Global,
    site: Site,
    cost: u64,
    goal: u64,
    dive: &mut Dive,
    roster: &mut HoleRoster,
    watch: &W,
) -> Result<(), Memory> {
    let before = roster.cost(site.instance);
    let hoped = goal.saturating_add(goal / HOPED_PART);
    dive.narrow_to(alloc, site, cost.min(hoped))?;
    dive_from_nothing(alloc, site, 1, goal, dive, roster, watch)?;
    dive.widen(site)?;
    if roster.cost(site.instance) >= before {
        dive_from_nothing(alloc, site, 1, goal, dive, roster, watch)?;
    }
    Ok(())
}

/// Returns the best roster from prices that are looked for first, a dive from nothing, and holes.
fn search_first<W: Watch>(
    alloc: Global,
    site: Site,
    task: &HoleTask,
    tools: &mut Tools,
    watch: &W,
) -> Result<HoleRoster, Memory> {
    let empty = HoleRoster::new(alloc, site.instance)?;
    let dive = &mut tools.dive;
    dive.widen(site)?;
    let bound = dive.find_prices(site, &empty, task.cost, PRICE_CHUNKS, watch)?;
    drop(empty);
    let goal = cost_of(bound - SLACK).saturating_add(1).max(task.bound);
    let mut roster = roster_of(alloc, site, task.shifts, dive)?;
    dive_first(alloc, site, task.cost, goal, dive, &mut roster, watch)?;
    let mut budget = begun(
        site,
        task,
        FIRST_DRAWS,
        PASSES_BEFORE,
        FIRST_PATIENCE,
        tools,
    );
    open_round(alloc, site, goal, &mut budget, tools, &mut roster, watch)?;
    Ok(roster)
}

/// Makes all arcs those that dives from nothing begin with, or where the known roster is near, those of
/// rosters that cost less.
fn turn_to_first(
    alloc: Global,
    site: Site,
    task: &HoleTask,
    dive: &mut Dive,
) -> Result<(), Memory> {
    dive.widen(site)?;
    if task.cost.saturating_sub(task.bound) < task.cost / NEAR_PART {
        dive.narrow_to(alloc, site, task.cost)?;
    }
    Ok(())
}

/// Opens holes in a roster that a further dive from nothing leads to. It becomes the roster where it is
/// better.
fn open_afresh<W: Watch>(
    alloc: Global,
    site: Site,
    task: &HoleTask,
    budget: &mut Budget,
    tools: &mut Tools,
    roster: &mut HoleRoster,
    watch: &W,
) -> Result<(), Memory> {
    turn_to_first(alloc, site, task, &mut tools.dive)?;
    let step = LEAST_STEP.saturating_add(tools.ranking.draws.below(FURTHER_STEP));
    let mut other = fresh_roster(alloc, site, step, &mut tools.dive, watch)?;
    if other.is_staffed(site.graph) {
        open_round(alloc, site, task.bound, budget, tools, &mut other, watch)?;
    }
    if is_better(site, &other, roster) {
        *roster = other;
    }
    Ok(())
}

/// Begins anew until a roster costs no more than the bound, or the budget is used up: in turn with a dive
/// from nothing, and with the best roster once it was shaken.
fn open_again<W: Watch>(
    alloc: Global,
    site: Site,
    task: &HoleTask,
    budget: &mut Budget,
    tools: &mut Tools,
    roster: &mut HoleRoster,
    watch: &W,
) -> Result<(), Memory> {
    for round in 0..MOST_ROUNDS {
        let is_done = reaches(site, roster, task.bound) || budget.is_used(tools.dive.passer.work);
        if watch.is_over() || is_done {
            break;
        }
        budget.begin_anew(roster.cost(site.instance));
        if round % 2 == 0 {
            open_afresh(alloc, site, task, budget, tools, roster, watch)?;
        } else {
            open_shaken(alloc, site, task.bound, budget, tools, roster, watch)?;
        }
    }
    Ok(())
}

/// Returns the best roster at the first node, or where none is known: from dives from nothing, and holes in
/// what they lead to.
fn search_afresh<W: Watch>(
    alloc: Global,
    site: Site,
    task: &HoleTask,
    tools: &mut Tools,
    watch: &W,
) -> Result<HoleRoster, Memory> {
    let mut budget = begun(site, task, task.turn, PASSES_FIRST, FIRST_PATIENCE, tools);
    let mut roster = HoleRoster::new(alloc, site.instance)?;
    let dive = &mut tools.dive;
    let goal = task.bound;
    turn_to_first(alloc, site, task, dive)?;
    dive_from_nothing(alloc, site, DIVES, goal, dive, &mut roster, watch)?;
    open_round(alloc, site, goal, &mut budget, tools, &mut roster, watch)?;
    open_again(alloc, site, task, &mut budget, tools, &mut roster, watch)?;
    Ok(roster)
}

/// Returns the best roster from holes in that of the task.
fn search_below<W: Watch>(
    alloc: Global,
    site: Site,
    task: &HoleTask,
    tools: &mut Tools,
    watch: &W,
) -> Result<HoleRoster, Memory> {
    let mut budget = begun(site, task, task.turn, passes_at(task.turn), PATIENCE, tools);
    tools.dive.widen(site)?;
    let mut roster = roster_of(alloc, site, task.shifts, &mut tools.dive)?;
    let goal = task.bound;
    open_round(alloc, site, goal, &mut budget, tools, &mut roster, watch)?;
    Ok(roster)
}

/// Returns the best roster at a node.
fn search_at<W: Watch>(
    alloc: Global,
    site: Site,
    task: &HoleTask,
    tools: &mut Tools,
    watch: &W,
) -> Result<HoleRoster, Memory> {
    if task.turn == 0 || task.shifts.is_empty() {
        search_afresh(alloc, site, task, tools, watch)
    } else {
        search_below(alloc, site, task, tools, watch)
    }
}

/// Returns a price in units of 2^-24.
fn fine_price(price: f64) -> i128 {
    i128::from(whole(price * 16_777_216.0))
}

impl HoleSearch {
    /// Returns a search for rosters of a day by holes. All great memory is taken here: the graph of the day
    /// in floats, a copy of it, and room for prices, sums and flows, at most 80 MB.
    ///
    /// # Errors
    ///
    /// `Memory` where memory runs out.
    pub fn new(alloc: Global, instance: &Instance, graph: &Graph) -> Result<HoleSearch, Memory> {
        let graph = HoleGraph::of(alloc, instance, graph)?;
        let site = Site {
            instance,
            graph: &graph,
        };
        let tools = tools_for(alloc, site)?;
        Ok(HoleSearch {
            graph,
            tools,
            rests: Rests::new(),
        })
    }

    /// Looks for a roster before any prices are known: prices of the cells are looked for first, and then a
    /// dive from nothing and holes make a roster, or the task's roster better. Returns at most 64 sound
    /// shifts at the price 0, where they seem to cost less than the task's cost. Where the watch is over no
    /// further chunk of passes, dive or hole is begun.
    ///
    /// # Errors
    ///
    /// `Memory` where memory runs out; it may be asked again then.
    pub fn first_roster<W: Watch>(
        &mut self,
        alloc: Global,
        instance: &Instance,
        task: &HoleTask,
        watch: &W,
    ) -> Result<Option<List<Shift>>, Memory>
        ensures { IfOk result (λ found. IfSome found (AreSoundShifts instance.now)) }
    {
        let site = Site {
            instance,
            graph: &self.graph,
        };
        let roster = search_first(alloc, site, task, &mut self.tools, watch)?;
        found_shifts(alloc, instance, &self.graph, task.cost, &roster)
    }

    /// Looks for a roster at a node, at its prices, or at those at hand where it has none: at the first node
    /// from nothing, again and again, and else by holes in the task's roster. Returns at most 64 sound shifts
    /// at the price 0, where they seem to cost less than the task's cost. Where the watch is over no further
    /// hole is opened. After three nodes without gain holes rest for four turns.
    ///
    /// # Errors
    ///
    /// `Memory` where memory runs out; it may be asked again then.
    pub fn open_holes<W: Watch>(
        &mut self,
        alloc: Global,
        instance: &Instance,
        task: &HoleTask,
        prices: Option<&Prices>,
        watch: &W,
    ) -> Result<Option<List<Shift>>, Memory>
        ensures { IfOk result (λ found. IfSome found (AreSoundShifts instance.now)) }
    {
        if !self.rests.take_turn() {
            return Ok(None);
        }
        if let Some(prices) = prices {
            set_starts(prices, self.tools.dive.volume.starts.as_mut_slice());
        }
        let site = Site {
            instance,
            graph: &self.graph,
        };
        let roster = search_at(alloc, site, task, &mut self.tools, watch)?;
        let found = found_shifts(alloc, instance, &self.graph, task.cost, &roster)?;
        self.rests.note(found.is_some());
        Ok(found)
    }

    /// Returns the prices of the cells with which dives begin, in units of 2^-24: after `first_roster` those
    /// that were found.
    ///
    /// # Errors
    ///
    /// `Memory` where memory runs out.
    pub fn cell_prices(&self, alloc: Global) -> Result<List<i128>, Memory> {
        let mut prices = List::new(alloc);
        for price in self.tools.dive.volume.starts.as_slice() {
            prices.push(fine_price(*price))?;
        }
        Ok(prices)
    }
}
