//! How a search ends, what it costs, its bound, and how many nodes it took.
//!
//! How a search ends, what it costs, the bound, how many nodes were processed and how many were split without
//! prices.

ghost use Rattle.std.specs.Prelude.{◌≤◌, IfOk};
ghost use Rattle.model_rosters.specs.Sound.{IsSound};
ghost use Rattle.model_rosters.specs.SoundInstance.{IsSoundInstance};
ghost use Rattle.tree_graph.specs.Graphs.{IsGraph};

use crate::failing::FailingMaster;
use model_rosters::{Grammar, Instance, Sym};
use model_sample_days::{ANY, DayParts, PAIR_PARTS, REST, RuleParts, WORK, sound_day};
use search_branch_price::{Done, Found, Master, PlainMaster, Pool, SteadyWatch, search};
use std::alloc::Global;
use std::test::Fail;
use tree_graph::{Graph, GraphFault};
use tree_pool::normalise;

/// Two of three periods at 2, where each period needs one employee.
pub static PAIR_DAY: DayParts<'static> = PAIR_PARTS;

/// The name of the one letter of work.
const WORKED: Sym = Sym::Name(4);

/// The name of the one letter of rest.
const RESTED: Sym = Sym::Name(5);

const NAMED_RULES: [RuleParts<'static>; 11] = [
    (0, 0, &[Sym::Name(1)], ANY),
    (0, 0, &[Sym::Name(2)], ANY),
    (0, 0, &[Sym::Name(3)], ANY),
    (1, 2, &[WORKED, RESTED, WORKED], ANY),
    (1, 2, &[RESTED, WORKED, WORKED], ANY),
    (2, 2, &[WORKED, RESTED, WORKED], ANY),
    (2, 2, &[WORKED, WORKED, RESTED], ANY),
    (3, 2, &[RESTED, WORKED, WORKED], ANY),
    (3, 2, &[WORKED, WORKED, RESTED], ANY),
    (4, 0, &[WORK], ANY),
    (5, 0, &[REST], ANY),
];

/// The same day by three kinds of shifts, each of which rests at one of two periods, so that each word has
/// two trees; work and rest have names of their own.
static NAMED_DAY: DayParts<'static> = DayParts {
    names: &["S", "E", "L", "M", "W", "R"],
    rules: &NAMED_RULES,
    ..PAIR_PARTS
};

fn build(alloc: Global, grammar: &Grammar) -> Result<Graph, GraphFault>
    requires { IsSound grammar.now }
    ensures { IfOk result (IsGraph grammar.now) }
{
    let normal = normalise(alloc, grammar)?;
    Graph::build(alloc, grammar, &normal)
}

/// Returns the graph of a sound grammar.
pub fn graph_of(alloc: Global, grammar: &Grammar) -> Result<Graph, Fail>
    requires { IsSound grammar.now }
    ensures { IfOk result (IsGraph grammar.now) }
{
    match build(alloc, grammar) {
        Ok(graph) => Ok(graph),
        Err(_) => Err(Fail::from("no graph")),
    }
}

/// Searches in a graph with a new pool.
fn searched_in<M: Master>(
    alloc: Global,
    day: &Instance,
    graph: &Graph,
    turns: u32,
    master: &mut M,
) -> Result<Found, Fail>
    requires day { IsSoundInstance day.now }
    requires graph { IsGraph day.now.grammar graph.now }
    requires some { 1 ≤ turns }
    requires few { turns ≤ 10000 }
{
    let mut pool = Pool::new(alloc);
    let found = search(
        alloc,
        day,
        graph,
        turns,
        &mut pool,
        master,
        &mut SteadyWatch,
    );
    drop(pool);
    Ok(found?)
}

/// Searches on a sound day.
fn searched_on<M: Master>(
    alloc: Global,
    day: &Instance,
    turns: u32,
    master: &mut M,
) -> Result<Found, Fail>
    requires day { IsSoundInstance day.now }
    requires some { 1 ≤ turns }
    requires few { turns ≤ 10000 }
{
    let graph = graph_of(alloc, &day.grammar)?;
    let found = searched_in(alloc, day, &graph, turns, master);
    drop(graph);
    found
}

/// Searches on a sample day.
fn searched<M: Master>(
    alloc: Global,
    parts: &DayParts,
    turns: u32,
    master: &mut M,
) -> Result<Found, Fail>
    requires some { 1 ≤ turns }
    requires few { turns ≤ 10000 }
{
    let day = sound_day(alloc, parts)?;
    let found = searched_on(alloc, &day, turns, master);
    drop(day);
    found
}

/// Whether a search ends at cost 4, with so many nodes split without prices.
fn is_at_four(found: &Found, failed: u32) -> bool {
    found.done == Done::Equal
        && found.cert.cost == Some(4)
        && found.cert.bound == Some(4)
        && found.failed == failed
}

/// Searches for few turns on the day whose letters have names.
fn searched_by_letters(alloc: Global) -> Result<Found, Fail> {
    let mut master = PlainMaster::new();
    let found = searched(alloc, &NAMED_DAY, 10, &mut master);
    drop(master);
    found
}

// At the root, of value 3, each period is one of rest with weight a half. Where none rests there, both other
// words are needed, and where one does, one of them: 4 in both halves. A split on an arc of one of a word's
// two trees would leave 3 on one side.
#[test]
fn letters_are_split(rt: HostRuntime) -> Result<(), Fail> {
    let found = searched_by_letters(rt.alloc())?;
    let are_three = is_at_four(&found, 0) && found.processed == 3;
    drop(found);
    assert!(rt; are_three);
    Ok(())
}

/// Searches on pairs with a master that fails at every call.
fn searched_without_prices(alloc: Global, turns: u32) -> Result<Found, Fail>
    requires some { 1 ≤ turns }
    requires few { turns ≤ 10000 }
{
    let mut master = FailingMaster::new(true, Vec::new(alloc));
    let found = searched(alloc, &PAIR_DAY, turns, &mut master);
    drop(master);
    found
}

// The leaves are the points: 6 arcs of 4 counts.
#[test]
fn a_master_that_always_fails(rt: HostRuntime) -> Result<(), Fail> {
    let found = searched_without_prices(rt.alloc(), 8191)?;
    let is_ended = is_at_four(&found, 4095) && found.processed == 8191;
    drop(found);
    assert!(rt; is_ended);
    Ok(())
}

#[test]
fn a_master_that_always_fails_with_a_turn_less(rt: HostRuntime) -> Result<(), Fail> {
    let found = searched_without_prices(rt.alloc(), 8190)?;
    let are_out = found.done == Done::TurnsOut && found.processed == 8190;
    drop(found);
    assert!(rt; are_out);
    Ok(())
}

/// Whether a search on pairs with a master that fails at two calls ends at cost 4, and each of them failed a
/// node.
fn ends_after_two_faults(alloc: Global) -> Result<bool, Fail> {
    let mut master = FailingMaster::new(false, vec![in alloc; 1, 2]?);
    let found = searched(alloc, &PAIR_DAY, 8191, &mut master);
    let refused = master.refused();
    drop(master);
    let found = found?;
    Ok(refused == 2 && is_at_four(&found, 2))
}

#[test]
fn a_master_that_fails_at_two_calls(rt: HostRuntime) -> Result<(), Fail> {
    assert!(rt; ends_after_two_faults(rt.alloc())?);
    Ok(())
}
