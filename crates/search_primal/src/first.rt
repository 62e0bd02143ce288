//! A roster before any node has prices.

ghost use Rattle.std.specs.Prelude.{IfSome};
ghost use Rattle.lp_master_rows.specs.search_day.Days.{IsDay};
ghost use Rattle.search_candidates.specs.Rosters.{IsGoodRoster};
ghost use Rattle.search_primal.specs.Workspaces.{IsWorkspace, HasTried};

use crate::completed::offer_begun;
use crate::holes::offer_first_holes;
use crate::workspace::SearchWorkspace;
use lp_master_rows::Day;
use model_rosters::{Instance, List, Memory, Prices};
use search_candidates::Roster;
use search_masters::Pool;
use search_moves::Guide;
use search_watch::{Watch, Work};
use std::alloc::Global;
use tree_graph::Graph;

/// A day is wide where its graph has so many arcs.
const WIDE_ARCS: usize = 8_192;

/// How many passes over the graph the moves of a first roster may take on a wide day.
const FIRST_PASSES: u32 = 300;

/// Says whether a day is wide.
pub(crate) fn is_wide(graph: &Graph) -> bool {
    graph.arcs().len() >= WIDE_ARCS
}

/// Returns what an employee too few costs at each cell, as prices.
///
/// # Errors
///
/// `Memory` where memory runs out; nothing is kept then.
pub(crate) fn missing_prices(alloc: Global, instance: &Instance) -> Result<Prices, Memory> {
    let mut cell = List::new(alloc);
    for one in instance.cells.as_slice() {
        cell.push(i128::from(one.under))?;
    }
    Ok(Prices {
        d: 1,
        cell,
        mult: List::new(alloc),
    })
}

/// Returns what steers the moves of a first roster: a few on a wide day, and none on another one.
fn first_guide<'a>(graph: &Graph, prices: &'a Prices) -> Guide<'a> {
    Guide {
        prices,
        passes: 0,
        further: if is_wide(graph) { FIRST_PASSES } else { 0 },
        most: 0,
        goal: 0,
        turn: 0,
    }
}

/// Offers a roster for which no prices need be known: it is completed from no trees, shift by shift. Its
/// trees stand in a pool of their own, so that the masters to come know nothing of it.
///
/// # Errors
///
/// `Memory` where memory runs out; the best roster is an allowed one still then.
pub(crate) fn offer_first<W: Watch>(
    alloc: Global,
    day: &Day,
    workspace: &mut SearchWorkspace,
    best: &mut Option<Roster>,
    watch: &W,
) -> Result<(), Memory>
    requires day { IsDay day.now }
    requires workspace { IsWorkspace day.now workspace.old }
    requires good { IfSome best.old (IsGoodRoster day.now.instance.now) }
    ensures { HasTried day.now workspace.new best.old best.new }
{
    watch.tell(Work::First);
    workspace.has_first = true;
    let prices = missing_prices(alloc, day.instance)?;
    let guide = first_guide(day.graph, &prices);
    let mut pool = Pool::new(alloc);
    let offered = offer_begun(alloc, day, &[], &guide, workspace, &mut pool, best, watch);
    drop(pool);
    drop(prices);
    offered
}

/// Offers a first roster before any node is priced, on a wide day where no old roster is allowed.
///
/// # Errors
///
/// `Memory` where memory runs out; the best roster is an allowed one still then.
pub fn offer_early<W: Watch>(
    alloc: Global,
    day: &Day,
    has_old: bool,
    workspace: &mut SearchWorkspace,
    best: &mut Option<Roster>,
    watch: &W,
) -> Result<(), Memory>
    requires day { IsDay day.now }
    requires workspace { IsWorkspace day.now workspace.old }
    requires good { IfSome best.old (IsGoodRoster day.now.instance.now) }
    ensures { HasTried day.now workspace.new best.old best.new }
{
    if has_old || !is_wide(day.graph) {
        return Ok(());
    }
    offer_first(alloc, day, workspace, best, watch)?;
    offer_first_holes(alloc, day, workspace, best, watch)
}

/// Offers a first roster where the first node ends without prices and none was looked for before.
///
/// # Errors
///
/// `Memory` where memory runs out; the best roster is an allowed one still then.
pub fn offer_late<W: Watch>(
    alloc: Global,
    day: &Day,
    processed: u32,
    workspace: &mut SearchWorkspace,
    best: &mut Option<Roster>,
    watch: &W,
) -> Result<(), Memory>
    requires day { IsDay day.now }
    requires workspace { IsWorkspace day.now workspace.old }
    requires good { IfSome best.old (IsGoodRoster day.now.instance.now) }
    ensures { HasTried day.now workspace.new best.old best.new }
{
    if processed > 0 || workspace.has_first {
        return Ok(());
    }
    offer_first(alloc, day, workspace, best, watch)
}
