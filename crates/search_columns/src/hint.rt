//! What a column generation hands on.

ghost use Rattle.std.specs.Prelude.{ℕ, ◌<◌, All, List as Items, length, IfOk};
ghost use Rattle.model_rosters.specs.declared.instance.Cut.{Cut as PathCut};
ghost use Rattle.model_rosters.specs.declared.instance.Instance.{Instance as Model};
ghost use Rattle.tree_pool.specs.Pools.{PoolTree, IsPool};
ghost use Rattle.lp_master_rows.specs.node_task.Tasks.{IsTask};
ghost use Rattle.search_node_columns.specs.Columns.{IsWorkspace};

use crate::asked::Asked;
use crate::float_columns::{basic_own, basic_trees, placed_trees};
use crate::generation::Generation;
use lp_master_rows::NodeTask;
use lp_near_prices::{NearHint, near_hint};
use model_rosters::{List, Memory};
use search_node_columns::{ColumnWorkspace, workspace_of};
use std::alloc::Global;
use tree_pool::Pool;

/// How many units of a near price make one of the prices that are asked at.
const FINE: i128 = 65_536;

/// What a column generation ends with: a basis that may be a good one.
#[derive(Drop)]
pub struct Hint {
    /// Its trees of the pool.
    pub trees: List<usize>,
    /// The listed columns of rows in it.
    pub own: List<u32>,
    /// Its weights and prices.
    pub near: NearHint,
    /// The best prices that were asked at, in units of 2^-40; none where none are known.
    pub best: List<i128>,
    /// Whether the column generation ended before no tree was cheap, where the value was near to what the
    /// best prices show.
    pub is_early: bool,
    /// Whether a watch ended the column generation.
    pub is_stopped: bool,
}

/// Adds the columns below a count to those that are wanted.
fn want_listed(wanted: &mut List<u32>, own: &[u32], count: usize) -> Result<(), Memory>
    requires { All (λ (j : ℕ). j < count) wanted.old }
    ensures { IfOk result (λ _. All (λ (j : ℕ). j < count) wanted.new) }
{
    for column in own {
        if (*column as usize) < count {
            wanted.push(*column)?;
        }
    }
    Ok(())
}

/// Wants columns of rows beside those that are wanted.
fn want_own(workspace: &mut ColumnWorkspace, own: &[u32]) -> Result<(), Memory>
    requires { All (λ (j : ℕ). j < length workspace.old.held) workspace.old.wanted }
    ensures { IfOk result (λ _. (i : Model) (cuts : Items PathCut) (pool : Items PoolTree)
        → IsWorkspace i cuts pool workspace.old → IsWorkspace i cuts pool workspace.new) }
{
    want_listed(&mut workspace.wanted, own, workspace.held.len())
}

/// Returns a workspace for a node, with the rows' own columns and the trees of a basis listed, and the
/// columns of the basis wanted.
///
/// # Errors
///
/// `Memory` where memory runs out; nothing is kept then.
pub fn hinted_workspace(
    alloc: Global,
    task: &NodeTask,
    hint: &Hint,
    pool: &Pool,
) -> Result<ColumnWorkspace, Memory>
    requires task { IsTask task.now }
    requires pool { IsPool task.now.day.instance.now.grammar pool.now }
    ensures { IfOk result (IsWorkspace task.now.day.instance.now task.now.cuts.now pool.now) }
{
    let mut workspace = workspace_of(alloc, task, pool, hint.trees.as_slice())?;
    want_own(&mut workspace, hint.own.as_slice())?;
    Ok(workspace)
}

/// Returns prices in units of 2^-40 that stand in units of 2^-24.
fn fine_prices(alloc: Global, prices: &[i128]) -> Result<List<i128>, Memory> {
    let mut fine = List::new(alloc);
    for price in prices {
        fine.push(price.saturating_mul(FINE))?;
    }
    Ok(fine)
}

/// Returns the best prices that were asked at, in units of 2^-40; none where none are known.
fn best_of(alloc: Global, asked: &Asked) -> Result<List<i128>, Memory> {
    match asked.bound() {
        Some(_) => fine_prices(alloc, asked.best()),
        None => Ok(List::new(alloc)),
    }
}

/// Returns what a column generation gives for near prices; where it ended early, with the best prices that
/// were asked at.
fn near_of(
    alloc: Global,
    task: &NodeTask,
    pool: &Pool,
    generation: &Generation,
) -> Result<NearHint, Memory>
    requires { IsTask task.now }
{
    let float_program = &generation.float_program;
    let places = placed_trees(alloc, generation.workspace.held.as_slice(), float_program)?;
    let near = near_hint(
        alloc,
        task.day.instance,
        task.cuts,
        task.rows,
        pool,
        places.as_slice(),
        float_program,
    )?;
    match generation.asked.early_prices() {
        None => Ok(near),
        Some(best) => Ok(NearHint {
            listed: near.listed,
            y: fine_prices(alloc, best)?,
        }),
    }
}

/// Returns the basis of a column generation, which a watch may have stopped.
///
/// # Errors
///
/// `Memory` where memory runs out; nothing is kept then.
pub(crate) fn hint_of(
    alloc: Global,
    task: &NodeTask,
    pool: &Pool,
    generation: &Generation,
    is_stopped: bool,
) -> Result<Hint, Memory>
    requires { IsTask task.now }
{
    let held = generation.workspace.held.as_slice();
    Ok(Hint {
        trees: basic_trees(alloc, held, &generation.float_program)?,
        own: basic_own(alloc, held, &generation.float_program)?,
        near: near_of(alloc, task, pool, generation)?,
        best: best_of(alloc, &generation.asked)?,
        is_early: generation.asked.early_prices().is_some(),
        is_stopped,
    })
}
