//! Searches that a watch stops at each question in turn.
//!
//! Searches that a watch stops at each question: fewer than 100 follow, no more nodes are processed than by
//! the whole search, and its bound is not passed; a root that is stopped once prices were asked at keeps
//! some.

ghost use Rattle.std.specs.Prelude.{◌≤◌};
ghost use Rattle.model_rosters.specs.SoundInstance.{IsSoundInstance};
ghost use Rattle.tree_graph.specs.Graphs.{IsGraph};

use crate::failing::FailingMaster;
use crate::searches::{PAIR_DAY, graph_of};
use crate::watches::{NthWatch, Still};
use model_rosters::{Cell, Instance};
use model_sample_days::{
    ANY, BLOCK_PARTS, CELL, DayParts, FLOOR_CELLS, PAIR_PARTS, REST, RuleParts, WORK, sound_day,
};
use search_branch_price::{
    ClockWatch, Done, Found, Master, PlainMaster, Pool, Subject, Watch, search,
};
use std::alloc::Global;
use std::test::Fail;
use tree_graph::Graph;

/// The same day with at least one employee in each period, which no equal shifts are.
static FLOOR_DAY: DayParts<'static> = DayParts {
    cells: &FLOOR_CELLS,
    ..PAIR_PARTS
};

/// One or two of the last periods.
const LATE_RULES: [RuleParts<'static>; 2] = [
    (0, 2, &[REST, WORK, WORK], ANY),
    (0, 1, &[REST, REST, WORK], ANY),
];

/// At least one employee is wanted in period 1, which no shift covers.
const UNMET: [Cell; 3] = [
    Cell { floor: 1, ..CELL },
    Cell { period: 2, ..CELL },
    Cell { period: 3, ..CELL },
];

static UNMET_DAY: DayParts<'static> = DayParts {
    rules: &LATE_RULES,
    cells: &UNMET,
    ..PAIR_PARTS
};

/// How a search ended that was watched.
#[derive(Clone, Copy, Drop)]
struct SearchEnd {
    done: Done,
    cost: Option<u64>,
    bound: Option<u64>,
    processed: u32,
    /// How many nodes the certificate has.
    nodes: usize,
    /// How often the watch was asked.
    asked: u32,
}

impl SearchEnd {
    /// Whether the root alone, which is processed, shows a bound above 0 and below this cost.
    fn is_bounded_below(&self, cost: u64) -> bool {
        let shows = self.bound.is_some_and(|bound| 0 < bound && bound < cost);
        self.done == Done::TurnsOut && self.nodes == 1 && self.processed == 1 && shows
    }
}

/// Returns how a search ended that found this.
fn watched_of(found: &Found, watch: &NthWatch) -> SearchEnd {
    SearchEnd {
        done: found.done,
        cost: found.cert.cost,
        bound: found.cert.bound,
        processed: found.processed,
        nodes: found.cert.nodes.len(),
        asked: watch.asked(),
    }
}

/// Searches in a graph with a new pool.
fn found_in<M: Master, W: Watch>(
    alloc: Global,
    day: &Instance,
    graph: &Graph,
    turns: u32,
    master: &mut M,
    watch: &mut W,
) -> Result<Found, Fail>
    requires day { IsSoundInstance day.now }
    requires graph { IsGraph day.now.grammar graph.now }
    requires some { 1 ≤ turns }
    requires few { turns ≤ 10000 }
{
    let mut pool = Pool::new(alloc);
    let found = search(alloc, day, graph, turns, &mut pool, master, watch);
    drop(pool);
    Ok(found?)
}

/// Searches in a graph, which a watch stops at this question.
fn watched_in<M: Master>(
    alloc: Global,
    day: &Instance,
    graph: &Graph,
    turns: u32,
    master: &mut M,
    over_at: Option<u32>,
) -> Result<SearchEnd, Fail>
    requires day { IsSoundInstance day.now }
    requires graph { IsGraph day.now.grammar graph.now }
    requires some { 1 ≤ turns }
    requires few { turns ≤ 10000 }
{
    let mut watch = NthWatch::new(over_at);
    let found = found_in(alloc, day, graph, turns, master, &mut watch)?;
    let watched = watched_of(&found, &watch);
    drop(found);
    Ok(watched)
}

/// Searches in a graph with a new master, a plain one or one that always fails.
fn watched_by(
    alloc: Global,
    day: &Instance,
    graph: &Graph,
    fails: bool,
    over_at: Option<u32>,
) -> Result<SearchEnd, Fail>
    requires day { IsSoundInstance day.now }
    requires graph { IsGraph day.now.grammar graph.now }
{
    if fails {
        let mut master = FailingMaster::new(true, Vec::new(alloc));
        let watched = watched_in(alloc, day, graph, 40, &mut master, over_at);
        drop(master);
        return watched;
    }
    let mut master = PlainMaster::new();
    let watched = watched_in(alloc, day, graph, 40, &mut master, over_at);
    drop(master);
    watched
}

/// Searches on a sound day.
fn watched_on(
    alloc: Global,
    day: &Instance,
    fails: bool,
    over_at: Option<u32>,
) -> Result<SearchEnd, Fail>
    requires day { IsSoundInstance day.now }
{
    let graph = graph_of(alloc, &day.grammar)?;
    let watched = watched_by(alloc, day, &graph, fails, over_at);
    drop(graph);
    watched
}

/// Searches a sample day.
fn watched(
    alloc: Global,
    parts: &DayParts,
    fails: bool,
    over_at: Option<u32>,
) -> Result<SearchEnd, Fail> {
    let day = sound_day(alloc, parts)?;
    let watched = watched_on(alloc, &day, fails, over_at);
    drop(day);
    watched
}

/// Whether a search that a watch stops at a question ends soon behind it, and says no more than the whole
/// one.
fn ends_soon(whole: &SearchEnd, stopped: &SearchEnd, number: u32) -> bool {
    stopped.asked >= number
        && stopped.asked < number.saturating_add(100)
        && stopped.processed <= whole.processed
        && stopped.bound.unwrap_or(u64::MAX) <= whole.bound.unwrap_or(u64::MAX)
        && (stopped.done == whole.done || stopped.done == Done::TurnsOut)
}

/// Whether it is so at each question, some so many apart.
fn end_soon(alloc: Global, parts: &DayParts, fails: bool, apart: u32) -> Result<bool, Fail> {
    let whole = watched(alloc, parts, fails, None)?;
    let mut end_soon = whole.asked > apart;
    for number in 1..=whole.asked {
        if number % apart.max(1) == 0 {
            let stopped = watched(alloc, parts, fails, Some(number))?;
            end_soon &= ends_soon(&whole, &stopped, number);
        }
    }
    Ok(end_soon)
}

#[test]
fn searches_that_are_stopped_at_each_question(rt: HostRuntime) -> Result<(), Fail> {
    assert!(rt; end_soon(rt.alloc(), &PAIR_DAY, false, 1)?);
    assert!(rt; end_soon(rt.alloc(), &FLOOR_DAY, false, 1)?);
    assert!(rt; end_soon(rt.alloc(), &BLOCK_PARTS, false, 3)?);
    Ok(())
}

#[test]
fn searches_without_prices_that_are_stopped(rt: HostRuntime) -> Result<(), Fail> {
    assert!(rt; end_soon(rt.alloc(), &FLOOR_DAY, true, 1)?);
    Ok(())
}

// The master is stopped before there are prices, and the leaf of the root stays open.
#[test]
fn a_day_without_rosters_that_is_stopped_at_once(rt: HostRuntime) -> Result<(), Fail> {
    let found = watched(rt.alloc(), &UNMET_DAY, false, Some(1))?;
    assert!(rt; found.done == Done::TurnsOut);
    assert!(rt; found.cost.is_none() && found.bound == Some(0));
    assert!(rt; found.processed == 0);
    Ok(())
}

// Of two shifts at 2 one covers each period at least once, and one period twice.
#[test]
fn a_first_roster_where_equal_shifts_miss_a_floor(rt: HostRuntime) -> Result<(), Fail> {
    let found = watched(rt.alloc(), &FLOOR_DAY, false, Some(1))?;
    assert!(rt; found.done == Done::TurnsOut && found.processed == 0);
    assert!(rt; found.cost == Some(4));
    Ok(())
}

/// Whether a stop at some question leaves the root prices that show more than 0 and less than the day's cost.
fn keeps_prices(alloc: Global, parts: &DayParts, cost: u64) -> Result<bool, Fail> {
    let whole = watched(alloc, parts, false, None)?;
    for number in 1..=whole.asked {
        let stopped = watched(alloc, parts, false, Some(number))?;
        if stopped.is_bounded_below(cost) {
            return Ok(true);
        }
    }
    Ok(false)
}

#[test]
fn a_root_that_is_stopped_once_prices_were_asked_at(rt: HostRuntime) -> Result<(), Fail> {
    assert!(rt; keeps_prices(rt.alloc(), &PAIR_DAY, 4)?);
    Ok(())
}

/// Returns what a search for one second by a clock that stands still finds on a sound day.
fn found_by_still_clock(alloc: Global, day: &Instance) -> Result<Found, Fail>
    requires day { IsSoundInstance day.now }
{
    let graph = graph_of(alloc, &day.grammar)?;
    let mut master = PlainMaster::new();
    let mut watch = ClockWatch::new(Still);
    watch.begin(Subject::Solve, Some(1));
    let found = found_in(alloc, day, &graph, 40, &mut master, &mut watch);
    drop(watch);
    drop(master);
    drop(graph);
    found
}

/// Returns what it finds on pairs.
fn pairs_by_still_clock(alloc: Global) -> Result<Found, Fail> {
    let day = sound_day(alloc, &PAIR_DAY)?;
    let found = found_by_still_clock(alloc, &day);
    drop(day);
    found
}

#[test]
fn a_clock_that_stands_still_stops_nothing(rt: HostRuntime) -> Result<(), Fail> {
    let found = pairs_by_still_clock(rt.alloc())?;
    let is_closed = found.done == Done::Equal && found.cert.cost == Some(4);
    drop(found);
    assert!(rt; is_closed);
    Ok(())
}
