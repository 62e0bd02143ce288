//! The exact path.

ghost use Rattle.std.specs.Prelude.{◌<◌, All, Bool, length, IfOk};
ghost use Rattle.lp_tableaus.specs.declared.simplex.Basic.{Basic as BasicColumn};
ghost use Rattle.search_node_columns.specs.Columns.{IsWorkspace};
ghost use Rattle.search_node_columns.specs.Weights.{AreWeightsOf};
ghost use Rattle.search_columns.specs.Tools.{StayTools};
ghost use Rattle.search_masters.specs.Ends.{IsFailedBy};
ghost use Rattle.search_masters.specs.Tasks.{IsBusyTask, MaySolve, EndsCounted, EndsPath};

use crate::ends::{Cause, NodeEnd};
use crate::exact_prices::round;
use lp_fractions::Tally;
use lp_master_rows::NodeTask;
use lp_tableaus::{Basic, LpEnd, LpFault, solve};
use model_rosters::{List, Memory};
use search_columns::{Hint, hinted_workspace};
use search_node_columns::{ColumnWorkspace, NodeColumns, Weight, tree_weights};
use search_watch::Watch;
use std::alloc::Global;
use tree_cheapest::Pricer;
use tree_pool::Pool;

/// How many pivots a node is allowed.
pub const PIVOTS: u32 = 5000;

/// Solves the master of a node exactly. The watch is asked before each pivot.
///
/// # Errors
///
/// `Memory` where memory runs out; the pricer is still one for the graph then, and the pool has its trees
/// under their numbers, and perhaps further trees of the day.
pub(crate) fn solve_rows<W: Watch>(
    alloc: Global,
    task: &NodeTask,
    hint: &Hint,
    pricer: &mut Pricer,
    pool: &mut Pool,
    watch: &W,
) -> Result<NodeEnd, Memory>
    requires { MaySolve task.now pricer.old pool.old }
    ensures end { IfOk result (EndsCounted task.now pool.new (W.patient watch.now)) }
    ensures tools { StayTools task.now.day pricer.new pool.old pool.new }
{
    let mut workspace = hinted_workspace(alloc, task, hint, pool)?;
    solve_at(alloc, task, pricer, pool, &mut workspace, watch)
}

/// Solves the master of the columns at a workspace.
fn solve_at<W: Watch>(
    alloc: Global,
    task: &NodeTask,
    pricer: &mut Pricer,
    pool: &mut Pool,
    workspace: &mut ColumnWorkspace,
    watch: &W,
) -> Result<NodeEnd, Memory>
    requires may { MaySolve task.now pricer.old pool.old }
    requires workspace { IsWorkspace task.now.day.instance.now task.now.cuts.now pool.old workspace.old }
    ensures end { IfOk result (EndsCounted task.now pool.new (W.patient watch.now)) }
    ensures tools { StayTools task.now.day pricer.new pool.old pool.new }
{
    let mut tally = Tally::new();
    let mut columns = NodeColumns {
        alloc,
        task,
        pricer,
        pool,
        workspace,
        watch,
    };
    match solve(alloc, &mut columns, task.rows.right(), PIVOTS, &mut tally) {
        Ok(end) => best_end(alloc, task, &columns, &end),
        Err(fault) => failed(fault),
    }
}

/// Returns the answer to a program that was solved: its prices, rounded, its value and its weights.
fn best_end<W: Watch>(
    alloc: Global,
    task: &NodeTask,
    columns: &NodeColumns<'_, '_, '_, '_, '_, '_, W>,
    end: &LpEnd,
) -> Result<NodeEnd, Memory>
    requires task { IsBusyTask task.now }
    requires end { EndsPath task.now columns.now.pool.now columns.now.workspace.now.held end.now }
    ensures { (calm : Bool) → IfOk result (EndsCounted task.now columns.now.pool.now calm) }
{
    let mut tally = Tally::new();
    let weights = listed_weights(alloc, columns, end.basic.as_slice())?;
    let prices = round(alloc, task, end.y.as_slice(), end.kappa, &mut tally)?;
    Ok(NodeEnd::Best {
        prices,
        value: end.value,
        weights,
    })
}

/// Returns the weights above 0 of trees, in the order of the basic columns.
fn listed_weights<W: Watch>(
    alloc: Global,
    columns: &NodeColumns<'_, '_, '_, '_, '_, '_, W>,
    basic: &[Basic],
) -> Result<List<Weight>, Memory>
    requires { All (λ (b : BasicColumn). b.col < length columns.now.workspace.now.held) basic.now }
    ensures { IfOk result (AreWeightsOf columns.now.workspace.now.held basic.now) }
{
    tree_weights(alloc, columns.workspace.held.as_slice(), basic)
}

/// Returns the answer to a program that was given up.
fn failed(fault: LpFault) -> Result<NodeEnd, Memory>
    ensures { IsFailedBy fault result }
{
    match fault {
        LpFault::Wide(fault) => Ok(NodeEnd::Failed(Cause::Wide(fault))),
        LpFault::Spent { pivots } => Ok(NodeEnd::Failed(Cause::Spent { pivots })),
        LpFault::Memory => Err(Memory),
        LpFault::Stopped => Ok(NodeEnd::Stopped(None)),
    }
}
