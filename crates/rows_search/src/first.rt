//! Which end a master has that goes one way to prices first.
//!
//! Near prices and weights of a half at the root of pairs, near weights of two thirds that keep ceilings, and
//! exact prices where the exact path comes first.

ghost use Rattle.std.specs.Prelude.{[], true, IfOk};
ghost use Rattle.model_rosters.specs.SoundInstance.{IsSoundInstance};
ghost use Rattle.tree_graph.specs.Graphs.{IsGraph};
ghost use Rattle.search_masters.specs.Ends.{EndsRight};
ghost use Rattle.rows_search.specs.Days.{IsMasterDay, AreLent};

use crate::days::{graph_of, is_master_day};
use crate::masters::{Lent, PAIR_DAY, is_half, lent_for};
use lp_master_rows::Day;
use model_rosters::{Cell, Instance, Memory};
use model_sample_days::{ANY, CELL, DayParts, REST, RuleParts, WORK, sound_day};
use search_masters::{Bases, First, NodeEnd, Steering, Weight, solve_node_from};
use search_watch::SteadyWatch;
use std::alloc::Global;
use std::test::Fail;
use tree_graph::Graph;

/// Three of four periods, at 2, for the one name `S`.
const TRIPLES: [RuleParts<'static>; 4] = [
    (0, 2, &[WORK, WORK, WORK, REST], ANY),
    (0, 2, &[REST, WORK, WORK, WORK], ANY),
    (0, 2, &[WORK, REST, WORK, WORK], ANY),
    (0, 2, &[WORK, WORK, REST, WORK], ANY),
];

const TWO: Cell = Cell {
    need: 2,
    ceiling: 2,
    ..CELL
};

const TWO_CELLS: [Cell; 4] = [
    TWO,
    Cell { period: 2, ..TWO },
    Cell { period: 3, ..TWO },
    Cell { period: 4, ..TWO },
];

/// Three of four periods at 2, where each period needs two employees and has at most two: each shift has two
/// thirds of an employee.
pub(crate) static TRIPLE_DAY: DayParts<'static> = DayParts {
    periods: 4,
    names: &["S"],
    rules: &TRIPLES,
    start: 0,
    heads: (0, 3),
    groups: &[],
    cells: &TWO_CELLS,
};

/// Solves the master of the root, going one way to prices first.
pub fn solve(
    alloc: Global,
    day: &Instance,
    graph: &Graph,
    lent: &mut Lent,
    first: First,
) -> Result<NodeEnd, Memory>
    requires day { IsMasterDay day.now }
    requires graph { IsGraph day.now.grammar graph.now }
    requires lent { AreLent day.now graph.now lent.old.pricer lent.old.pool }
    ensures lent { AreLent day.now graph.now lent.new.pricer lent.new.pool }
    ensures end { IfOk result (EndsRight day.now [] lent.new.pool lent.old.tally lent.new.tally true) }
{
    let mut steering = Steering {
        wanted: &[],
        first,
        bases: Bases::new(alloc),
    };
    solve_node_from(
        alloc,
        &Day {
            instance: day,
            graph,
        },
        &[],
        &mut lent.pricer,
        &mut lent.pool,
        &mut steering,
        &SteadyWatch,
        &mut lent.tally,
    )
}

fn solve_in(alloc: Global, day: &Instance, graph: &Graph, first: First) -> Result<NodeEnd, Fail>
    requires sound { IsSoundInstance day.now }
    requires graph { IsGraph day.now.grammar graph.now }
{
    if !is_master_day(day, graph) {
        return Err(Fail::from("no master of the day"));
    }
    let mut lent = lent_for(alloc, day, graph)?;
    let end = solve(alloc, day, graph, &mut lent, first);
    drop(lent);
    Ok(end?)
}

fn solve_on(alloc: Global, day: &Instance, first: First) -> Result<NodeEnd, Fail>
    requires { IsSoundInstance day.now }
{
    let graph = graph_of(alloc, &day.grammar)?;
    let end = solve_in(alloc, day, &graph, first);
    drop(graph);
    end
}

/// Solves the master of the root of a day.
fn solve_day(alloc: Global, parts: &DayParts, first: First) -> Result<NodeEnd, Fail> {
    let day = sound_day(alloc, parts)?;
    let end = solve_on(alloc, &day, first);
    drop(day);
    end
}

/// One in units of the denominator of near prices.
const ONE: i128 = 1_048_576;

/// Whether the prices are near ones of 1 for each of three cells, and three weights are a half.
pub(crate) fn are_near_halves(end: &NodeEnd) -> bool {
    match end {
        NodeEnd::Near { prices, weights } => {
            i128::from(prices.d) == ONE
                && prices.cell.as_slice() == [ONE, ONE, ONE].as_slice()
                && prices.mult.is_empty()
                && weights.len() == 3
                && weights.as_slice().iter().all(|weight| is_half(weight))
        }
        NodeEnd::Best { .. } | NodeEnd::Failed(_) | NodeEnd::Stopped(_) => false,
    }
}

#[test]
fn near_prices_of_pairs(rt: HostRuntime) -> Result<(), Fail> {
    assert!(rt; are_near_halves(&solve_day(rt.alloc(), &PAIR_DAY, First::Near)?));
    Ok(())
}

/// Whether a weight is 2 thirds, within 2^-40.
fn is_about_2_thirds(weight: &Weight) -> bool {
    let (num, den) = (weight.x.num(), weight.x.den());
    let off = num.saturating_mul(3).saturating_sub(den.saturating_mul(2));
    off.saturating_mul(1 << 40).unsigned_abs() <= den.unsigned_abs()
}

/// Whether the prices of the four cells are 2 thirds, and the weights of four trees are.
pub(crate) fn are_near_thirds(end: &NodeEnd) -> bool {
    match end {
        NodeEnd::Near { prices, weights } => {
            prices.cell.as_slice() == [699_050; 4].as_slice()
                && weights.len() == 4
                && weights
                    .as_slice()
                    .iter()
                    .all(|weight| is_about_2_thirds(weight))
        }
        NodeEnd::Best { .. } | NodeEnd::Failed(_) | NodeEnd::Stopped(_) => false,
    }
}

// The nearest number to 2 thirds in units of 2^-56 is 48038396025285291, and three of it exceed a ceiling by
// 1: such weights would show no prices best.
#[test]
fn near_weights_keep_their_ceilings(rt: HostRuntime) -> Result<(), Fail> {
    assert!(rt; are_near_thirds(&solve_day(rt.alloc(), &TRIPLE_DAY, First::Near)?));
    Ok(())
}

#[test]
fn the_exact_path_first(rt: HostRuntime) -> Result<(), Fail> {
    let end = solve_day(rt.alloc(), &PAIR_DAY, First::Exact)?;
    let is_exact = matches!(end, NodeEnd::Best { .. });
    drop(end);
    assert!(rt; is_exact);
    Ok(())
}
