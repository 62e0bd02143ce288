//! Near prices by column generations that are lost, and go on carefully.
//!
//! The same near prices by column generations whose rounds have one to five steps of each kind: they are
//! lost, some at once and some later, and go on carefully (`search_columns`).

ghost use Rattle.model_rosters.specs.SoundInstance.{IsSoundInstance};
ghost use Rattle.tree_graph.specs.Graphs.{IsGraph};
ghost use Rattle.rows_search.specs.Days.{IsMasterDay, AreLent};

use crate::days::{graph_of, is_master_day};
use crate::first::{TRIPLE_DAY, are_near_halves, are_near_thirds};
use crate::masters::{Lent, PAIR_DAY, lent_for};
use lp_float_programs::Limits;
use lp_master_rows::Day;
use model_rosters::{Instance, Memory};
use model_sample_days::{DayParts, sound_day};
use search_masters::{Bases, First, NodeEnd, Steering, solve_node_from};
use search_watch::SteadyWatch;
use std::alloc::Global;
use std::test::Fail;
use tree_graph::Graph;

/// With fewer steps a round than this column generations of these days are lost, some at once and some in a
/// later round.
const FEW: u32 = 6;

/// Solves the master of the root, near prices first, by column generations whose rounds have so many steps of
/// each kind.
fn solve(
    alloc: Global,
    day: &Instance,
    graph: &Graph,
    lent: &mut Lent,
    steps: u32,
) -> Result<NodeEnd, Memory>
    requires day { IsMasterDay day.now }
    requires graph { IsGraph day.now.grammar graph.now }
    requires lent { AreLent day.now graph.now lent.old.pricer lent.old.pool }
{
    let limits = Limits {
        dual: steps,
        primal: steps,
    };
    let mut steering = Steering {
        wanted: &[],
        first: First::Near,
        bases: Bases::with_steps(alloc, limits),
    };
    solve_node_from(
        alloc,
        &Day {
            instance: day,
            graph,
        },
        &[],
        &mut lent.pricer,
        &mut lent.pool,
        &mut steering,
        &SteadyWatch,
        &mut lent.tally,
    )
}

fn solve_in(alloc: Global, day: &Instance, graph: &Graph, steps: u32) -> Result<NodeEnd, Fail>
    requires sound { IsSoundInstance day.now }
    requires graph { IsGraph day.now.grammar graph.now }
{
    if !is_master_day(day, graph) {
        return Err(Fail::from("no master of the day"));
    }
    let mut lent = lent_for(alloc, day, graph)?;
    let end = solve(alloc, day, graph, &mut lent, steps);
    drop(lent);
    Ok(end?)
}

fn solve_on(alloc: Global, day: &Instance, steps: u32) -> Result<NodeEnd, Fail>
    requires { IsSoundInstance day.now }
{
    let graph = graph_of(alloc, &day.grammar)?;
    let end = solve_in(alloc, day, &graph, steps);
    drop(graph);
    end
}

/// Solves the master of the root of a day.
fn solve_day(alloc: Global, parts: &DayParts, steps: u32) -> Result<NodeEnd, Fail> {
    let day = sound_day(alloc, parts)?;
    let end = solve_on(alloc, &day, steps);
    drop(day);
    end
}

#[test]
fn pairs_by_lost_generations(rt: HostRuntime) -> Result<(), Fail> {
    for steps in 1..FEW {
        assert!(rt; are_near_halves(&solve_day(rt.alloc(), &PAIR_DAY, steps)?));
    }
    Ok(())
}

#[test]
fn triples_by_lost_generations(rt: HostRuntime) -> Result<(), Fail> {
    for steps in 1..FEW {
        assert!(rt; are_near_thirds(&solve_day(rt.alloc(), &TRIPLE_DAY, steps)?));
    }
    Ok(())
}
