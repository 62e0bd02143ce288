//! A roster from counts of arcs: `offer_counts`.

ghost use Rattle.std.specs.Prelude.{◌≡◌, OnOk, IfOk, IfSome, MatchOption, length};
ghost use Rattle.model_rosters.specs.declared.grammar.Grammar.{Grammar as Rules};
ghost use Rattle.model_rosters.specs.Sound.{IsSound};
ghost use Rattle.tree_graph.specs.Graphs.{HasGrammar, IsGraph};
ghost use Rattle.tree_pool.specs.Pools.{IsPool};
ghost use Rattle.search_arc_counts.specs.roster_split.Splits.{HasBalance, IsSplit};
ghost use Rattle.lp_master_rows.specs.search_day.Days.{IsDay};
ghost use Rattle.lp_master_rows.specs.search_day.Rooms.{Grows};
ghost use Rattle.search_candidates.specs.Rosters.{IsGoodRoster};
ghost use Rattle.search_candidates.specs.Offers.{IsBetter, CanBeTrees, IsReached};
ghost use Rattle.search_candidates.specs.Finding.{AreFoundColumns, IsOfCounts};
ghost use Rattle.search_candidates.specs.Tools.{AreTools, StayTools};

use crate::best::offer;
use crate::{Roster, RosterWorkspace, columns_of, roster_of};
use lp_master_rows::Day;
use model_rosters::{List, Memory, Step};
use search_arc_counts::{SplitFault, split};
use std::alloc::Global;
use tree_graph::Graph;
use tree_pool::Pool;

// Returns trees of the day that have these counts, the rule uses of each in preorder; `None` where no list of
// trees has them.
fn trees_with(
    alloc: Global,
    graph: &Graph,
    counts: &[u32],
) -> Result<Option<List<List<Step>>>, Memory>
    requires graph { HasGrammar graph.now }
    requires counts { length counts.now ≡ length graph.now.arcs }
    ensures { IfOk result (λ found. (g : Rules) → IsSound g → IsGraph g graph.now
        → MatchOption found (HasBalance graph.now counts.now → ⊥) (IsSplit g graph.now counts.now)) }
{
    match split(alloc, graph, counts) {
        Ok(trees) => Ok(Some(trees)),
        Err(SplitFault::Memory) => Err(Memory),
        Err(SplitFault::Unbalanced { .. }) => Ok(None),
    }
}

// Returns the numbers of such trees in the pool, to which those that are not there are added.
fn columns_with(
    alloc: Global,
    day: &Day,
    counts: &[u32],
    pool: &mut Pool,
) -> Result<Option<List<usize>>, Memory>
    requires day { IsDay day.now }
    requires counts { length counts.now ≡ length day.now.graph.now.arcs }
    requires pool { IsPool day.now.instance.now.grammar pool.old }
    ensures found { IfOk result (AreFoundColumns day.now counts.now pool.new) }
    ensures pool { Grows day.now pool.old pool.new }
{
    let Some(trees) = trees_with(alloc, day.graph, counts)? else {
        return Ok(None);
    };
    let columns = columns_of(alloc, &day.instance.grammar, trees.as_slice(), pool)?;
    Ok(Some(columns))
}

// Returns the roster of such trees, where there are any and it is allowed.
fn roster_with(
    alloc: Global,
    day: &Day,
    counts: &[u32],
    pool: &mut Pool,
    workspace: &mut RosterWorkspace,
) -> Result<Option<Roster>, Memory>
    requires day { IsDay day.now }
    requires counts { length counts.now ≡ length day.now.graph.now.arcs }
    requires tools { AreTools day.now pool.old workspace.old }
    ensures found { IfOk result (IsOfCounts day.now counts.now) }
    ensures tools { StayTools day.now pool.old pool.new workspace.new }
{
    let Some(columns) = columns_with(alloc, day, counts, pool)? else {
        return Ok(None);
    };
    roster_of(alloc, day.instance, pool, columns.as_slice(), workspace)
}

/// Offers the roster of trees that have these counts, one for each arc of the graph: it becomes the best
/// one where it is allowed and costs less. The trees are added to the pool. Where no list of trees has the
/// counts, nothing is offered.
///
/// # Errors
///
/// `Memory` where memory runs out.
pub fn offer_counts(
    alloc: Global,
    day: &Day,
    counts: &[u32],
    pool: &mut Pool,
    workspace: &mut RosterWorkspace,
    best: &mut Option<Roster>,
) -> Result<(), Memory>
    requires day { IsDay day.now }
    requires counts { length counts.now ≡ length day.now.graph.now.arcs }
    requires tools { AreTools day.now pool.old workspace.old }
    requires best { IfSome best.old (IsGoodRoster day.now.instance.now) }
    ensures better { IsBetter day.now.instance.now best.old best.new }
    ensures reached { CanBeTrees day.now.instance.now day.now.graph.now counts.now
        → OnOk result (IsReached day.now counts.now best.new) }
    ensures tools { StayTools day.now pool.old pool.new workspace.new }
{
    let found = roster_with(alloc, day, counts, pool, workspace)?;
    offer(day.instance, best, found);
    Ok(())
}
