//! What is listed first.

ghost use Rattle.std.specs.Prelude.{ℕ, ◌≡◌, ◌≤◌, ◌<◌, ◌+◌, ◌^◌, pos, [], ◌∷◌, All, length, IfOk};
ghost use Rattle.model_rosters.specs.SoundInstance.{IsSoundInstance};
ghost use Rattle.law_bounds.specs.BestPrices.{artificial_cost};
ghost use Rattle.law_bounds.specs.master_laws.Rows.{rows_of};
ghost use Rattle.tree_pool.specs.Pools.{IsPool};
ghost use Rattle.lp_master_rows.specs.node_task.Tasks.{IsTask};
ghost use Rattle.search_node_columns.specs.Columns.{HasMore, AreHeld, IsWorkspace, IsEmptyWorkspace};
ghost use Rattle.search_node_columns.specs.Listing.{AreMissing, HaveBeyonds, StayTold};

use crate::trees::tree_column;
use crate::workspace::{ColumnWorkspace, Held, Kind};
use lp_fractions::Place;
use lp_master_rows::{NodeTask, artificial_price};
use model_rosters::{Cut, Instance, List, Memory, PriceRoom, TreeRoom};
use std::alloc::Global;
use tree_pool::Pool;

/// Returns a list of one entry.
fn one_place(alloc: Global, row: usize, value: i64) -> Result<List<Place>, Memory>
    requires { row < 2 ^ 32 }
    ensures { IfOk result (λ places. places ≡ record { row = row; value = value } ∷ []) }
{
    let mut places = List::new(alloc);
    places.push(Place {
        row: row as u32,
        value,
    })?;
    Ok(places)
}

/// Lists the column of what is missing in each row, in the order of the rows.
fn add_missing(
    alloc: Global,
    task: &NodeTask,
    artificial: i64,
    held: &mut List<Held>,
) -> Result<(), Memory>
    requires task { IsTask task.now }
    requires artificial { artificial ≡ pos (artificial_cost task.now.day.instance.now) }
    requires none { held.old ≡ [] }
    ensures { IfOk result (λ _. AreMissing task.now held.new) }
{
    for row in 0..task.rows.right().len() {
        held.push(Held {
            kind: Kind::Missing(row),
            places: one_place(alloc, row, 1)?,
            cost: task.rows.missing_cost(row, artificial),
        })?;
    }
    Ok(())
}

/// Lists the column of what is beyond in each row that has one.
fn add_beyond(alloc: Global, task: &NodeTask, held: &mut List<Held>) -> Result<(), Memory>
    requires { IsTask task.now }
    ensures more { HasMore held.old held.new }
    ensures listed { IfOk result (λ _. HaveBeyonds task.now held.old held.new) }
{
    for row in 0..task.rows.right().len() {
        if let Some(cost) = task.rows.beyond_cost(row) {
            held.push(Held {
                kind: Kind::Beyond(row),
                places: one_place(alloc, row, -1)?,
                cost,
            })?;
        }
    }
    Ok(())
}

/// Lists a tree of the pool, and lists it as wanted.
fn add_tree(
    alloc: Global,
    task: &NodeTask,
    pool: &Pool,
    tree: usize,
    held: &mut List<Held>,
    wanted: &mut List<u32>,
) -> Result<(), Memory>
    requires tree { tree < length pool.now }
    requires wanted { All (λ (j : ℕ). j < length held.old) wanted.old }
    ensures more { HasMore held.old held.new }
    ensures wanted { IfOk result (λ _. All (λ (j : ℕ). j < length held.new) wanted.new) }
    ensures listed { IfOk result (λ _. StayTold task.now pool.now held.old held.new) }
{
    let column = held.len();
    held.push(tree_column(alloc, task, pool, tree)?)?;
    if let Ok(number) = u32::try_from(column) {
        wanted.push(number)?;
    }
    Ok(())
}

/// Lists trees of the pool, and lists them as wanted; numbers beyond the pool are left out.
fn add_trees(
    alloc: Global,
    task: &NodeTask,
    pool: &Pool,
    trees: &[usize],
    held: &mut List<Held>,
    wanted: &mut List<u32>,
) -> Result<(), Memory>
    requires wanted { All (λ (j : ℕ). j < length held.old) wanted.old }
    ensures more { HasMore held.old held.new }
    ensures wanted { IfOk result (λ _. All (λ (j : ℕ). j < length held.new) wanted.new) }
    ensures listed { IfOk result (λ _. StayTold task.now pool.now held.old held.new) }
{
    for tree in trees {
        if *tree < pool.len() {
            add_tree(alloc, task, pool, *tree, held, wanted)?;
        }
    }
    Ok(())
}

/// Lists the rows' own columns, and then the wanted trees of the pool.
fn list_columns(
    alloc: Global,
    task: &NodeTask,
    pool: &Pool,
    trees: &[usize],
    held: &mut List<Held>,
    wanted: &mut List<u32>,
) -> Result<(), Memory>
    requires task { IsTask task.now }
    requires pool { IsPool task.now.day.instance.now.grammar pool.now }
    requires none { held.old ≡ [] }
    requires unwanted { wanted.old ≡ [] }
    ensures held { IfOk result (λ _. AreHeld task.now.day.instance.now task.now.cuts.now pool.now held.new) }
    ensures wanted { IfOk result (λ _. All (λ (j : ℕ). j < length held.new) wanted.new) }
{
    add_missing(alloc, task, artificial_price(task.day.instance), held)?;
    add_beyond(alloc, task, held)?;
    add_trees(alloc, task, pool, trees, held, wanted)?;
    Ok(())
}

/// Returns how many numbers the prices of the rows make by cells and cuts: one for each cell, for both
/// rows of the heads and for each cut.
pub fn numbers_of(instance: &Instance, cuts: &[Cut]) -> usize
    requires sound { IsSoundInstance instance.now }
    requires small { length (rows_of instance.now cuts.now) ≤ 1500 }
    ensures { result ≡ length instance.now.cells + 2 + length cuts.now }
{
    instance.cells.len() + 2 + cuts.len()
}

/// Returns a workspace for the node at a path of cuts, at which no column is listed.
fn empty_workspace(alloc: Global, task: &NodeTask) -> Result<ColumnWorkspace, Memory>
    requires { IsTask task.now }
    ensures { IfOk result (IsEmptyWorkspace task.now.day.instance.now task.now.cuts.now) }
{
    let instance = task.day.instance;
    let count = numbers_of(instance, task.cuts);
    let numbers = vec![in alloc; 0i128; count]?;
    Ok(ColumnWorkspace {
        held: List::new(alloc),
        wanted: List::new(alloc),
        prices: PriceRoom::for_cuts(alloc, instance, task.cuts.len())?,
        tree: TreeRoom::for_grammar(alloc, &instance.grammar)?,
        numbers,
    })
}

/// Returns a workspace for the node at a path of cuts, with the rows' own columns and these trees of the pool
/// listed, and the trees wanted. Numbers beyond the pool are left out.
///
/// # Errors
///
/// `Memory` where memory runs out; nothing is kept then.
pub fn workspace_of(
    alloc: Global,
    task: &NodeTask,
    pool: &Pool,
    trees: &[usize],
) -> Result<ColumnWorkspace, Memory>
    requires task { IsTask task.now }
    requires pool { IsPool task.now.day.instance.now.grammar pool.now }
    ensures { IfOk result (IsWorkspace task.now.day.instance.now task.now.cuts.now pool.now) }
{
    let mut workspace = empty_workspace(alloc, task)?;
    list_columns(
        alloc,
        task,
        pool,
        trees,
        &mut workspace.held,
        &mut workspace.wanted,
    )?;
    Ok(workspace)
}
