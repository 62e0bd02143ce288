//! Rosters by holes on small days, and why one has none.

ghost use Rattle.std.specs.Prelude.{IfOk};
ghost use Rattle.model_rosters.specs.Sound.{IsSound};
ghost use Rattle.model_rosters.specs.SoundInstance.{IsSoundInstance};
ghost use Rattle.tree_graph.specs.Graphs.{IsGraph};

use crate::watches::NthWatch;
use model_rosters::{Cell, Grammar, Instance, List, Memory, Prices, Shift};
use model_sample_days::{CELL, DayParts, EXACT_PARTS, GROUP_PARTS, PAIR_PARTS, sound_day};
use search_holes::{HoleSearch, HoleTask};
use std::alloc::Global;
use std::test::Fail;
use tree_graph::{Graph, GraphFault};
use tree_pool::normalise;

/// Two of three periods at 2, where each period needs one employee.
static PAIR_DAY: DayParts<'static> = PAIR_PARTS;

/// The same with exactly one employee in each period, which no shifts of two periods are.
static EXACT_DAY: DayParts<'static> = EXACT_PARTS;

/// Full days at 3, at most one, and half days at 1, one or two; period 1 needs two employees, and period 2
/// one.
static GROUP_DAY: DayParts<'static> = GROUP_PARTS;

const TWO_CELLS: [Cell; 2] = [CELL, Cell { period: 2, ..CELL }];

/// Two periods, where each rule has three.
static SHORT_DAY: DayParts<'static> = DayParts {
    periods: 2,
    cells: &TWO_CELLS,
    ..PAIR_PARTS
};

/// Which call looks for a roster.
#[derive(Clone, Copy, Drop)]
enum Call {
    /// That before any prices are known.
    First,
    /// That at a node, after so many, at prices of 0.
    AtNode(u32),
}

fn build(alloc: Global, grammar: &Grammar) -> Result<Graph, GraphFault>
    requires { IsSound grammar.now }
    ensures { IfOk result (IsGraph grammar.now) }
{
    let normal = normalise(alloc, grammar)?;
    Graph::build(alloc, grammar, &normal)
}

/// Returns the graph of a sound grammar.
fn graph_of(alloc: Global, grammar: &Grammar) -> Result<Graph, Fail>
    requires { IsSound grammar.now }
    ensures { IfOk result (IsGraph grammar.now) }
{
    match build(alloc, grammar) {
        Ok(graph) => Ok(graph),
        Err(_) => Err(Fail::from("no graph")),
    }
}

/// Returns what a call finds at prices of 0, where a roster is to cost less than this.
fn called(
    alloc: Global,
    day: &Instance,
    call: Call,
    cost: u64,
    holes: &mut HoleSearch,
    watch: &NthWatch,
) -> Result<Option<List<Shift>>, Memory> {
    let turn = match call {
        Call::First => 0,
        Call::AtNode(turn) => turn,
    };
    let task = HoleTask {
        shifts: &[],
        cost,
        bound: 0,
        turn,
    };
    let prices = Prices {
        d: 1,
        cell: List::new(alloc),
        mult: List::new(alloc),
    };
    match call {
        Call::First => holes.first_roster(alloc, day, &task, watch),
        Call::AtNode(_) => holes.open_holes(alloc, day, &task, Some(&prices), watch),
    }
}

/// Returns what a new search finds in a graph.
fn found_in(
    alloc: Global,
    day: &Instance,
    graph: &Graph,
    call: Call,
    cost: u64,
    watch: &NthWatch,
) -> Result<Option<List<Shift>>, Memory> {
    let mut holes = HoleSearch::new(alloc, day, graph)?;
    let found = called(alloc, day, call, cost, &mut holes, watch);
    drop(holes);
    found
}

/// Returns what a new search finds on a day.
fn found_on(
    alloc: Global,
    parts: &DayParts,
    call: Call,
    cost: u64,
    watch: &NthWatch,
) -> Result<Option<List<Shift>>, Fail> {
    let day = sound_day(alloc, parts)?;
    let graph = match graph_of(alloc, &day.grammar) {
        Ok(graph) => graph,
        Err(fail) => {
            drop(day);
            return Err(fail);
        }
    };
    let found = found_in(alloc, &day, &graph, call, cost, watch);
    drop(graph);
    drop(day);
    Ok(found?)
}

/// Returns what a search that nothing stops finds on a day.
fn found(
    alloc: Global,
    parts: &DayParts,
    call: Call,
    cost: u64,
) -> Result<Option<List<Shift>>, Fail> {
    let watch = NthWatch::new(None);
    found_on(alloc, parts, call, cost, &watch)
}

/// Says whether nothing is found.
fn finds_none(alloc: Global, parts: &DayParts, call: Call, cost: u64) -> Result<bool, Fail> {
    let found = found(alloc, parts, call, cost)?;
    Ok(found.is_none())
}

/// Says whether these are two shifts of different words.
fn are_two(shifts: &[Shift]) -> bool {
    if let [first, second] = shifts {
        first.word != second.word
    } else {
        false
    }
}

/// Says whether two shifts of different words are found of pairs.
fn finds_two(alloc: Global, call: Call) -> Result<bool, Fail> {
    let found = found(alloc, &PAIR_DAY, call, 5)?;
    Ok(match found {
        Some(shifts) => are_two(shifts.as_slice()),
        None => false,
    })
}

// One shift leaves a period without an employee, at 10; two of different words cost 4, and three cost 6.
#[test]
fn pairs_are_two_shifts(rt: HostRuntime) -> Result<(), Fail> {
    assert!(rt; finds_two(rt.alloc(), Call::First)?);
    Ok(())
}

#[test]
fn pairs_are_two_shifts_at_the_first_node(rt: HostRuntime) -> Result<(), Fail> {
    assert!(rt; finds_two(rt.alloc(), Call::AtNode(0))?);
    Ok(())
}

#[test]
fn pairs_are_two_shifts_at_a_later_node(rt: HostRuntime) -> Result<(), Fail> {
    assert!(rt; finds_two(rt.alloc(), Call::AtNode(3))?);
    Ok(())
}

#[test]
fn no_pairs_cost_less_than_four(rt: HostRuntime) -> Result<(), Fail> {
    assert!(rt; finds_none(rt.alloc(), &PAIR_DAY, Call::First, 4)?);
    Ok(())
}

#[test]
fn no_pairs_leave_one_in_each_period(rt: HostRuntime) -> Result<(), Fail> {
    assert!(rt; finds_none(rt.alloc(), &EXACT_DAY, Call::First, 1 << 39)?);
    Ok(())
}

// The empty roster costs 20.
#[test]
fn a_day_without_trees_has_none(rt: HostRuntime) -> Result<(), Fail> {
    assert!(rt; finds_none(rt.alloc(), &SHORT_DAY, Call::First, 20)?);
    Ok(())
}

/// Says whether these are a shift of each of two groups.
fn are_of_both(shifts: &[Shift]) -> bool {
    if let [first, second] = shifts {
        first.group != second.group
    } else {
        false
    }
}

/// Says whether a shift of each group is found.
fn finds_both(alloc: Global, call: Call) -> Result<bool, Fail> {
    let found = found(alloc, &GROUP_DAY, call, 5)?;
    Ok(match found {
        Some(shifts) => are_of_both(shifts.as_slice()),
        None => false,
    })
}

// A full day and the first half of one cost 4; without the full day an employee is missing, at 10.
#[test]
fn groups_keep_their_ranges(rt: HostRuntime) -> Result<(), Fail> {
    assert!(rt; finds_both(rt.alloc(), Call::First)?);
    Ok(())
}

#[test]
fn groups_keep_their_ranges_at_a_node(rt: HostRuntime) -> Result<(), Fail> {
    assert!(rt; finds_both(rt.alloc(), Call::AtNode(1))?);
    Ok(())
}

/// Says whether the same is found twice.
fn finds_again(alloc: Global, call: Call) -> Result<bool, Fail> {
    let once = found(alloc, &PAIR_DAY, call, 31)?;
    let again = found(alloc, &PAIR_DAY, call, 31)?;
    Ok(match (once, again) {
        (Some(shifts), Some(others)) => shifts == others,
        _ => false,
    })
}

#[test]
fn the_same_is_found_twice(rt: HostRuntime) -> Result<(), Fail> {
    assert!(rt; finds_again(rt.alloc(), Call::First)?);
    Ok(())
}

/// Says whether few questions follow that at which a watch is over.
fn ends_soon(alloc: Global, over_at: u32) -> Result<bool, Fail> {
    let watch = NthWatch::new(Some(over_at));
    let found = found_on(alloc, &PAIR_DAY, Call::First, 30, &watch)?;
    drop(found);
    Ok(watch.asked() <= over_at.saturating_add(8))
}

/// Says whether few questions follow each of the first ones.
fn all_end_soon(alloc: Global) -> Result<bool, Fail> {
    for place in 0..40u32 {
        if !ends_soon(alloc, place.saturating_add(1))? {
            return Ok(false);
        }
    }
    Ok(true)
}

#[test]
fn a_watch_that_is_over_ends_holes(rt: HostRuntime) -> Result<(), Fail> {
    assert!(rt; all_end_soon(rt.alloc())?);
    Ok(())
}

/// Says whether nothing is found under a watch that is over from the first question on. The empty roster
/// costs 30.
fn finds_none_when_over(alloc: Global) -> Result<bool, Fail> {
    let watch = NthWatch::new(Some(1));
    let found = found_on(alloc, &PAIR_DAY, Call::First, 30, &watch)?;
    Ok(found.is_none())
}

#[test]
fn a_watch_that_is_over_at_once(rt: HostRuntime) -> Result<(), Fail> {
    assert!(rt; finds_none_when_over(rt.alloc())?);
    Ok(())
}
