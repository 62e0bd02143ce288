//! Bounds by the volume algorithm on a day of pairs, against the least costs of its master.
//!
//! Bounds by the volume algorithm (`search_node_columns::volume`) on a day of pairs, against the least costs
//! of its master: at the root and under a cut and its opposite, and from the prices found; and the two
//! cheapest trees in a pool.

ghost use Rattle.std.specs.Prelude.{◌≤◌, IfOk, length};
ghost use Rattle.model_rosters.specs.Folds.{Each};
ghost use Rattle.model_rosters.specs.Limits.{IsSmallCut};
ghost use Rattle.model_rosters.specs.SoundInstance.{IsSoundInstance};
ghost use Rattle.tree_graph.specs.Graphs.{IsGraph};
ghost use Rattle.law_bounds.specs.master_laws.Rows.{rows_of};
ghost use Rattle.lp_master_rows.specs.NodeRows.{AreRows};
ghost use Rattle.tree_pool.specs.Pools.{IsPool};

use crate::days::graph_of;
use lp_master_rows::{Day, NodeRows, NodeTask, count_rows};
use model_rosters::{ArcKey, Cut, Instance, Memory, Side};
use model_sample_days::{PAIR_PARTS, sound_day};
use search_node_columns::volume::{Volume, volume};
use search_watch::SteadyWatch;
use std::alloc::Global;
use std::test::Fail;
use tree_cheapest::Pricer;
use tree_graph::Graph;
use tree_pool::Pool;

/// At most no tree with the first part of the first rule.
const LOW: Cut = Cut {
    arc: ArcKey {
        rule: 1,
        suffix: 0,
        start: 1,
        len: 3,
        part: 1,
    },
    side: Side::Low,
    b: 0,
};

/// At least one tree with it.
const HIGH: Cut = Cut {
    side: Side::High,
    ..LOW
};

/// The unit of prices, one in 2^24.
const KAPPA: i128 = 16_777_216;

/// Takes passes over these rows.
fn volume_at(
    alloc: Global,
    day: &Instance,
    graph: &Graph,
    cuts: &[Cut],
    rows: &NodeRows,
    start: Option<&[i128]>,
) -> Result<Volume, Memory>
    requires sound { IsSoundInstance day.now }
    requires graph { IsGraph day.now.grammar graph.now }
    requires rows { AreRows day.now cuts.now rows.now }
    requires small { length (rows_of day.now cuts.now) ≤ 1500 }
    ensures { IfOk result (λ v. IsPool day.now.grammar v.pool) }
{
    let task = NodeTask {
        day: Day {
            instance: day,
            graph,
        },
        cuts,
        rows,
    };
    let mut pricer = Pricer::new(alloc, graph)?;
    let found = volume(alloc, &task, start, 400, &mut pricer, &SteadyWatch);
    drop(pricer);
    found
}

/// Whether the bound is at most the least cost, and at least half of it.
fn is_between(found: &Volume, cost: i128) -> bool {
    let most = cost.saturating_mul(KAPPA);
    found.bound <= most && found.bound >= most / 2
}

/// Whether the two cheapest trees come into a pool without trees.
fn are_listed(alloc: Global, day: &Instance, found: &Volume) -> Result<bool, Memory>
    requires sound { IsSoundInstance day.now }
    requires pool { IsPool day.now.grammar found.now.pool }
{
    let mut pool = Pool::new(alloc);
    let listed = found.list(alloc, day, 2, &mut pool)?;
    Ok(listed.as_slice() == [0, 1].as_slice() && pool.len() == 2)
}

/// Whether passes over these rows show a good bound from these prices.
fn is_shown_from(
    alloc: Global,
    day: &Instance,
    graph: &Graph,
    cuts: &[Cut],
    rows: &NodeRows,
    prices: &[i128],
    cost: i128,
) -> Result<bool, Memory>
    requires sound { IsSoundInstance day.now }
    requires graph { IsGraph day.now.grammar graph.now }
    requires rows { AreRows day.now cuts.now rows.now }
    requires small { length (rows_of day.now cuts.now) ≤ 1500 }
{
    let found = volume_at(alloc, day, graph, cuts, rows, Some(prices))?;
    let is_good = is_between(&found, cost);
    drop(found);
    Ok(is_good)
}

/// Whether passes over these rows show a good bound, and once more from its prices.
fn is_shown(
    alloc: Global,
    day: &Instance,
    graph: &Graph,
    cuts: &[Cut],
    rows: &NodeRows,
    cost: i128,
) -> Result<bool, Memory>
    requires sound { IsSoundInstance day.now }
    requires graph { IsGraph day.now.grammar graph.now }
    requires rows { AreRows day.now cuts.now rows.now }
    requires small { length (rows_of day.now cuts.now) ≤ 1500 }
{
    let found = volume_at(alloc, day, graph, cuts, rows, None)?;
    let again = is_shown_from(alloc, day, graph, cuts, rows, found.prices.as_slice(), cost);
    let is_good = is_between(&found, cost);
    let listed = are_listed(alloc, day, &found);
    drop(found);
    Ok(again? && is_good && listed?)
}

/// Whether the same holds at these cuts.
fn is_shown_at(
    alloc: Global,
    day: &Instance,
    graph: &Graph,
    cuts: &[Cut],
    cost: i128,
) -> Result<bool, Memory>
    requires sound { IsSoundInstance day.now }
    requires graph { IsGraph day.now.grammar graph.now }
    requires cuts { Each IsSmallCut cuts.now }
    requires small { length (rows_of day.now cuts.now) ≤ 1500 }
{
    let rows = NodeRows::new(alloc, day, cuts)?;
    let shown = is_shown(alloc, day, graph, cuts, &rows, cost);
    drop(rows);
    shown
}

/// Whether it holds at a cut.
fn is_shown_at_cut(
    alloc: Global,
    day: &Instance,
    graph: &Graph,
    cut: Cut,
    cost: i128,
) -> Result<bool, Memory>
    requires sound { IsSoundInstance day.now }
    requires graph { IsGraph day.now.grammar graph.now }
{
    let cuts = [cut];
    if cut.b > 63 || count_rows(day, &cuts) > 1500 {
        return Ok(false);
    }
    is_shown_at(alloc, day, graph, &cuts, cost)
}

/// Whether it holds at the root.
fn is_shown_at_root(
    alloc: Global,
    day: &Instance,
    graph: &Graph,
    cost: i128,
) -> Result<bool, Memory>
    requires sound { IsSoundInstance day.now }
    requires graph { IsGraph day.now.grammar graph.now }
{
    if count_rows(day, &[]) > 1500 {
        return Ok(false);
    }
    is_shown_at(alloc, day, graph, &[], cost)
}

/// Two of three periods at 2, where each period needs one employee, and a missing one costs 10: half of each
/// shift costs 3; without one of them, or with one of it, two shifts are needed.
fn are_shown(alloc: Global, day: &Instance, graph: &Graph) -> Result<bool, Memory>
    requires sound { IsSoundInstance day.now }
    requires graph { IsGraph day.now.grammar graph.now }
{
    Ok(
        is_shown_at_root(alloc, day, graph, 3)?
            && is_shown_at_cut(alloc, day, graph, LOW, 4)?
            && is_shown_at_cut(alloc, day, graph, HIGH, 4)?,
    )
}

fn are_shown_on(alloc: Global, day: &Instance) -> Result<bool, Fail>
    requires { IsSoundInstance day.now }
{
    let graph = graph_of(alloc, &day.grammar)?;
    let are_shown = are_shown(alloc, day, &graph);
    drop(graph);
    Ok(are_shown?)
}

#[test]
fn bounds_of_pairs(rt: HostRuntime) -> Result<(), Fail> {
    let day = sound_day(rt.alloc(), &PAIR_PARTS)?;
    let are_shown = are_shown_on(rt.alloc(), &day);
    drop(day);
    assert!(rt; are_shown?);
    Ok(())
}
