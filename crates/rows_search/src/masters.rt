//! Values, prices, weights and refusals of masters on a day of pairs.
//!
//! Values, prices, weights and refusals of masters (`search_masters`): at the root of a day of pairs, under a
//! cut on an arc and its opposite, with too many rows, and over more trees than any list could hold.

ghost use Rattle.std.specs.Prelude.{◌<◌, ◌^◌, All, IsTrue, IfOk, length};
ghost use Rattle.model_rosters.specs.Folds.{Each};
ghost use Rattle.model_rosters.specs.SoundInstance.{IsSoundInstance};
ghost use Rattle.tree_graph.specs.Graphs.{IsGraph};
ghost use Rattle.search_masters.specs.Ends.{IsNodeCut};
ghost use Rattle.rows_search.specs.Days.{IsMasterDay, IsListedCut, AreLent};

use crate::days::{graph_of, is_master_day};
use lp_fractions::{Frac, Tally};
use model_rosters::{ArcKey, Cut, Instance, Memory, Side};
use model_sample_days::{DayParts, PAIR_PARTS, day_of_many_trees, long_cells, sound_day};
use search_masters::{Cause, NodeEnd, Weight, solve_node};
use std::alloc::Global;
use std::test::Fail;
use tree_cheapest::Pricer;
use tree_graph::Graph;
use tree_pool::Pool;

/// Two of three periods at 2, where each period needs one employee.
pub static PAIR_DAY: DayParts<'static> = PAIR_PARTS;

/// At most no tree with the first part of the first rule of pairs.
pub const LOW: Cut = Cut {
    arc: ArcKey {
        rule: 1,
        suffix: 0,
        start: 1,
        len: 3,
        part: 1,
    },
    side: Side::Low,
    b: 0,
};

/// At least one tree with it.
const HIGH: Cut = Cut {
    side: Side::High,
    ..LOW
};

fn is_listed_cut(graph: &Graph, cut: &Cut) -> bool
    ensures { IsTrue result → IsListedCut graph.now cut.now }
{
    graph.find(&cut.arc).is_some() && cut.b <= 63
}

fn are_listed_cuts(graph: &Graph, cuts: &[Cut]) -> bool
    ensures { IsTrue result → All (IsListedCut graph.now) cuts.now }
{
    cuts.iter().all(|cut| is_listed_cut(graph, cut))
}

/// Returns whether the cuts are on arcs of the day, and not too many.
pub fn are_node_cuts(day: &Instance, graph: &Graph, cuts: &[Cut]) -> bool
    requires { IsGraph day.now.grammar graph.now }
    ensures cuts { IsTrue result → Each (IsNodeCut day.now) cuts.now }
    ensures few { IsTrue result → length cuts.now < 2 ^ 31 }
{
    cuts.len() < 1 << 31 && are_listed_cuts(graph, cuts)
}

/// What masters of a day are lent.
#[derive(Drop)]
pub struct Lent {
    pub pricer: Pricer,
    pub pool: Pool,
    pub tally: Tally,
}

pub fn lent_for(alloc: Global, day: &Instance, graph: &Graph) -> Result<Lent, Memory>
    ensures { IfOk result (λ l. AreLent day.now graph.now l.pricer l.pool) }
{
    Ok(Lent {
        pricer: Pricer::new(alloc, graph)?,
        pool: Pool::new(alloc),
        tally: Tally::new(),
    })
}

/// Solves the master at these cuts.
fn solve(
    alloc: Global,
    day: &Instance,
    graph: &Graph,
    lent: &mut Lent,
    cuts: &[Cut],
) -> Result<NodeEnd, Fail>
    requires day { IsMasterDay day.now }
    requires graph { IsGraph day.now.grammar graph.now }
    requires lent { AreLent day.now graph.now lent.old.pricer lent.old.pool }
{
    if !are_node_cuts(day, graph, cuts) {
        return Err(Fail::from("no cuts of the day"));
    }
    let end = solve_node(
        alloc,
        day,
        graph,
        &mut lent.pricer,
        &mut lent.pool,
        cuts,
        &[],
        &mut lent.tally,
    )?;
    Ok(end)
}

/// What the master of a node shows.
#[derive(Clone, Copy)]
enum Want {
    /// Its value, which is whole.
    Value(i128),
    /// A value of 3, a denominator of 1, a price of 1 for each of three cells, and three weights of a half.
    Halves,
    /// Why it is given up.
    Cause(Cause),
}

/// The cuts of a node, and what its master shows.
type Row<'a> = (&'a str, &'a [Cut], Want);

fn is_whole(value: &Frac, number: i128) -> bool {
    value.num() == number && value.den() == 1
}

pub fn is_half(weight: &Weight) -> bool {
    weight.x.num() == 1 && weight.x.den() == 2
}

fn are_halves(end: &NodeEnd) -> bool {
    match end {
        NodeEnd::Best {
            prices,
            value,
            weights,
        } => {
            is_whole(value, 3)
                && prices.d == 1
                && prices.cell.as_slice() == [1, 1, 1].as_slice()
                && prices.mult.is_empty()
                && weights.len() == 3
                && weights.as_slice().iter().all(|weight| is_half(weight))
        }
        NodeEnd::Near { .. } | NodeEnd::Failed(_) | NodeEnd::Stopped(_) => false,
    }
}

fn shows(end: &NodeEnd, want: &Want) -> bool {
    match (end, want) {
        (NodeEnd::Best { value, .. }, Want::Value(number)) => is_whole(value, *number),
        (NodeEnd::Best { .. }, Want::Halves) => are_halves(end),
        (NodeEnd::Failed(found), Want::Cause(cause)) => found == cause,
        _ => false,
    }
}

/// Whether the master at these cuts shows this.
fn shows_at(
    alloc: Global,
    day: &Instance,
    graph: &Graph,
    lent: &mut Lent,
    cuts: &[Cut],
    want: &Want,
) -> Result<bool, Fail>
    requires day { IsMasterDay day.now }
    requires graph { IsGraph day.now.grammar graph.now }
    requires lent { AreLent day.now graph.now lent.old.pricer lent.old.pool }
{
    let end = solve(alloc, day, graph, lent, cuts)?;
    let is_shown = shows(&end, want);
    drop(end);
    Ok(is_shown)
}

fn show_row(alloc: Global, day: &Instance, graph: &Graph, row: &Row<'_>) -> Result<(), Fail>
    requires day { IsMasterDay day.now }
    requires graph { IsGraph day.now.grammar graph.now }
{
    let (what, cuts, want) = row;
    let mut lent = lent_for(alloc, day, graph)?;
    let is_shown = shows_at(alloc, day, graph, &mut lent, cuts, want);
    drop(lent);
    if is_shown? {
        return Ok(());
    }
    Err(Fail::from(*what))
}

fn show_each(alloc: Global, day: &Instance, graph: &Graph, rows: &[Row<'_>]) -> Result<(), Fail>
    requires sound { IsSoundInstance day.now }
    requires graph { IsGraph day.now.grammar graph.now }
{
    if !is_master_day(day, graph) {
        return Err(Fail::from("no master of the day"));
    }
    for row in rows {
        show_row(alloc, day, graph, row)?;
    }
    Ok(())
}

fn show_rows(alloc: Global, day: &Instance, rows: &[Row<'_>]) -> Result<(), Fail>
    requires { IsSoundInstance day.now }
{
    let graph = graph_of(alloc, &day.grammar)?;
    let shown = show_each(alloc, day, &graph, rows);
    drop(graph);
    shown
}

/// Shows what the masters of these nodes of a day show.
fn show(alloc: Global, parts: &DayParts, rows: &[Row<'_>]) -> Result<(), Fail> {
    let day = sound_day(alloc, parts)?;
    let shown = show_rows(alloc, &day, rows);
    drop(day);
    shown
}

const PAIR_ROWS: [Row<'static>; 3] = [
    ("the root", &[], Want::Halves),
    ("few trees with an arc", &[LOW], Want::Value(4)),
    ("many trees with an arc", &[HIGH], Want::Value(4)),
];

#[test]
fn masters_of_pairs(rt: HostRuntime) -> Result<(), Fail> {
    show(rt.alloc(), &PAIR_DAY, &PAIR_ROWS)
}

#[test]
fn too_many_rows(rt: HostRuntime) -> Result<(), Fail> {
    // 1,496 rows of cuts beside three of cells and two of the heads.
    let cuts = vec![in rt.alloc(); Cut { b: 2, ..LOW }; 1496]?;
    let cause = Cause::Rows { count: 1501 };
    show(
        rt.alloc(),
        &PAIR_DAY,
        &[("too many", cuts.as_slice(), Want::Cause(cause))],
    )
}

// Where employees of weight W work, 1 <= W <= 2, an odd period costs W + W + 10 * (2 - W), an even one W + 1,
// and the 59 cuts of a tree 59 * W: least at W = 2, with 30 * 4 + 30 * 3 + 118.
const MANY_ROWS: [Row<'static>; 1] = [("many trees", &[], Want::Value(328))];

#[test]
fn a_master_over_more_trees_than_any_list(rt: HostRuntime) -> Result<(), Fail> {
    let cells = long_cells(rt.alloc(), 60)?;
    show(rt.alloc(), &day_of_many_trees(cells.as_slice()), &MANY_ROWS)
}
