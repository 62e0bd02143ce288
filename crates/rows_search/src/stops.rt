//! Masters that are stopped at each question of their watch in turn.
//!
//! (`watches`), either way to prices, and at some of many rows, where a column generation begins with passes:
//! fewer than 100 further questions follow, the first question stops it, and a watch that is never over stops
//! none.

ghost use Rattle.std.specs.Prelude.{◌<◌, ◌^◌, length};
ghost use Rattle.model_rosters.specs.Folds.{Each};
ghost use Rattle.model_rosters.specs.SoundInstance.{IsSoundInstance};
ghost use Rattle.tree_graph.specs.Graphs.{IsGraph};
ghost use Rattle.search_masters.specs.Ends.{IsNodeCut};
ghost use Rattle.rows_search.specs.Days.{IsMasterDay, AreLent};

use crate::days::{graph_of, is_master_day};
use crate::masters::{LOW, Lent, PAIR_DAY, are_node_cuts, lent_for};
use crate::watches::NthWatch;
use lp_master_rows::Day;
use model_rosters::{Cut, Instance, Memory};
use model_sample_days::sound_day;
use search_masters::{Bases, First, NodeEnd, Steering, solve_node_from};
use std::alloc::Global;
use std::test::Fail;
use tree_graph::Graph;

/// How a master ended that was watched.
#[derive(Clone, Copy, Drop)]
struct Watched {
    /// Whether it was stopped.
    is_stopped: bool,
    /// How often the watch was asked.
    asked: u32,
}

/// Solves the master at these cuts, which a watch stops at this question.
fn solve_until(
    alloc: Global,
    day: &Instance,
    graph: &Graph,
    lent: &mut Lent,
    cuts: &[Cut],
    first: First,
    over_at: Option<u32>,
) -> Result<Watched, Memory>
    requires day { IsMasterDay day.now }
    requires graph { IsGraph day.now.grammar graph.now }
    requires lent { AreLent day.now graph.now lent.old.pricer lent.old.pool }
    requires cuts { Each (IsNodeCut day.now) cuts.now }
    requires few { length cuts.now < 2 ^ 31 }
{
    let mut steering = Steering {
        wanted: &[],
        first,
        bases: Bases::new(alloc),
    };
    let day = Day {
        instance: day,
        graph,
    };
    let watch = NthWatch::new(over_at);
    let (pricer, pool) = (&mut lent.pricer, &mut lent.pool);
    let tally = &mut lent.tally;
    let end = solve_node_from(
        alloc,
        &day,
        cuts,
        pricer,
        pool,
        &mut steering,
        &watch,
        tally,
    )?;
    Ok(Watched {
        is_stopped: matches!(end, NodeEnd::Stopped(_)),
        asked: watch.asked(),
    })
}

/// Solves the master at these cuts anew.
fn solve_anew(
    alloc: Global,
    day: &Instance,
    graph: &Graph,
    cuts: &[Cut],
    first: First,
    over_at: Option<u32>,
) -> Result<Watched, Memory>
    requires day { IsMasterDay day.now }
    requires graph { IsGraph day.now.grammar graph.now }
    requires cuts { Each (IsNodeCut day.now) cuts.now }
    requires few { length cuts.now < 2 ^ 31 }
{
    let mut lent = lent_for(alloc, day, graph)?;
    let watched = solve_until(alloc, day, graph, &mut lent, cuts, first, over_at);
    drop(lent);
    watched
}

/// Whether the master is stopped at the first question, ends soon behind each one at which the watch is over,
/// of which so many are apart, and is not stopped by a watch that is never over.
fn ends_soon(
    alloc: Global,
    day: &Instance,
    graph: &Graph,
    cuts: &[Cut],
    first: First,
    apart: u32,
) -> Result<bool, Memory>
    requires day { IsMasterDay day.now }
    requires graph { IsGraph day.now.grammar graph.now }
    requires cuts { Each (IsNodeCut day.now) cuts.now }
    requires few { length cuts.now < 2 ^ 31 }
{
    let whole = solve_anew(alloc, day, graph, cuts, first, None)?;
    let begun = solve_anew(alloc, day, graph, cuts, first, Some(1))?;
    let mut ends_well = begun.is_stopped && !whole.is_stopped && whole.asked > apart;
    for number in 1..=whole.asked {
        if number % apart.max(1) == 0 {
            let watched = solve_anew(alloc, day, graph, cuts, first, Some(number))?;
            ends_well &= watched.asked >= number && watched.asked < number.saturating_add(100);
        }
    }
    Ok(ends_well)
}

/// Whether it is so at cuts on arcs of a day.
fn ends_soon_at(
    alloc: Global,
    day: &Instance,
    graph: &Graph,
    cuts: &[Cut],
    first: First,
    apart: u32,
) -> Result<bool, Fail>
    requires sound { IsSoundInstance day.now }
    requires graph { IsGraph day.now.grammar graph.now }
{
    if !is_master_day(day, graph) || !are_node_cuts(day, graph, cuts) {
        return Err(Fail::from("no master of the day"));
    }
    Ok(ends_soon(alloc, day, graph, cuts, first, apart)?)
}

fn ends_soon_on(
    alloc: Global,
    day: &Instance,
    cuts: &[Cut],
    first: First,
    apart: u32,
) -> Result<bool, Fail>
    requires { IsSoundInstance day.now }
{
    let graph = graph_of(alloc, &day.grammar)?;
    let ends_soon = ends_soon_at(alloc, day, &graph, cuts, first, apart);
    drop(graph);
    ends_soon
}

/// Whether it is so at the root of pairs, which has these cuts.
fn pairs_end_soon(alloc: Global, cuts: &[Cut], first: First, apart: u32) -> Result<bool, Fail> {
    let day = sound_day(alloc, &PAIR_DAY)?;
    let ends_soon = ends_soon_on(alloc, &day, cuts, first, apart);
    drop(day);
    ends_soon
}

#[test]
fn masters_by_near_prices_that_are_stopped_at_each_question(rt: HostRuntime) -> Result<(), Fail> {
    assert!(rt; pairs_end_soon(rt.alloc(), &[], First::Near, 1)?);
    Ok(())
}

#[test]
fn masters_by_the_exact_path_that_are_stopped_at_each_question(
    rt: HostRuntime,
) -> Result<(), Fail> {
    assert!(rt; pairs_end_soon(rt.alloc(), &[], First::Exact, 1)?);
    Ok(())
}

// With 250 rows a column generation begins with passes, of which there are hundreds.
#[test]
fn masters_of_many_rows_that_are_stopped(rt: HostRuntime) -> Result<(), Fail> {
    let cuts = vec![in rt.alloc(); Cut { b: 2, ..LOW }; 245]?;
    assert!(rt; pairs_end_soon(rt.alloc(), cuts.as_slice(), First::Near, 199)?);
    Ok(())
}
