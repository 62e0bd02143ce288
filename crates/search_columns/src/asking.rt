//! How a column generation lists trees at the prices that it asks at.

ghost use Rattle.std.specs.Prelude.{◌≡◌, length};
ghost use Rattle.lp_master_rows.specs.node_task.Tasks.{IsTask, row_count};
ghost use Rattle.search_node_columns.specs.Tools.{AreTools, StayTools};
ghost use Rattle.search_columns.specs.Generations.{IsGenerating, StayGenerating};

use crate::asked::KAPPA;
use crate::generation::Generation;
use lp_master_rows::NodeTask;
use model_rosters::Memory;
use search_node_columns::{ColumnWorkspace, first_wide, list_cheapest, list_several};
use std::alloc::Global;
use tree_cheapest::Pricer;
use tree_pool::Pool;

/// The weights of the best prices, in sixteenths, at which a round asks beside the float program's own.
const WEIGHTS: [i128; 2] = [12, 9];

/// Those at which a round of a careful column generation asks.
const CAREFUL_WEIGHTS: [i128; 4] = [12, 9, 6, 3];

/// How many trees a column generation lists at a float program's own prices, each with another arc at the
/// top.
const OWN: u32 = 5;

/// How many it lists so at mixed prices.
const MIXED: u32 = 1;

/// How many a careful column generation lists at a float program's own prices.
const CAREFUL_OWN: u32 = 11;

/// How many it lists at mixed prices.
const CAREFUL_MIXED: u32 = 4;

/// From so many trees on the pool is full: a column generation asks for no further ones.
pub const FULL: usize = 20_000;

/// Returns how many trees are listed at prices of which so many sixteenths are the best ones.
fn count_at(weight: i128, is_careful: bool) -> u32 {
    match (is_careful, weight == 0) {
        (false, true) => OWN,
        (false, false) => MIXED,
        (true, true) => CAREFUL_OWN,
        (true, false) => CAREFUL_MIXED,
    }
}

/// Returns the weights of the best prices at which a round asks beside the float program's own.
fn weights_of(is_careful: bool) -> &'static [i128] {
    if is_careful {
        &CAREFUL_WEIGHTS
    } else {
        &WEIGHTS
    }
}

/// Lists trees of negative reduced cost at prices in units of 2^-24, up to so many, and returns the column of
/// one of the least. No tree is asked for where the pool is full.
fn ask(
    alloc: Global,
    task: &NodeTask,
    y: &[i128],
    count: u32,
    pricer: &mut Pricer,
    pool: &mut Pool,
    workspace: &mut ColumnWorkspace,
) -> Result<Option<usize>, Memory>
    requires task { IsTask task.now }
    requires y { length y.now ≡ row_count task.now }
    requires tools { AreTools task.now pricer.old pool.old workspace.old }
    ensures { StayTools task.now pricer.new pool.old pool.new workspace.new }
{
    if pool.len() >= FULL || first_wide(y, KAPPA).is_some() {
        return Ok(None);
    }
    if count > 1 {
        return list_several(alloc, task, y, KAPPA, count, pricer, pool, workspace);
    }
    list_cheapest(alloc, task, y, KAPPA, pricer, pool, workspace)
}

/// Lists trees at mixed prices, as many as are listed there, and says whether the least one is cheap.
///
/// # Errors
///
/// `Memory` where memory runs out.
pub(crate) fn ask_mixed(
    alloc: Global,
    task: &NodeTask,
    weight: i128,
    pricer: &mut Pricer,
    pool: &mut Pool,
    generation: &mut Generation,
) -> Result<bool, Memory>
    requires { IsGenerating task.now pricer.old pool.old generation.old }
    ensures { StayGenerating task.now pricer.new pool.old pool.new generation.new }
{
    generation
        .asked
        .mix(generation.float_program.prices(), weight);
    let y = generation.asked.y.as_slice();
    let count = count_at(weight, generation.float_program.is_careful());
    let Some(column) = ask(
        alloc,
        task,
        y,
        count,
        pricer,
        pool,
        &mut generation.workspace,
    )?
    else {
        return Ok(false);
    };
    Ok(
        generation.asked.note(
            generation.workspace.held.as_slice(),
            column,
            task.rows.right(),
            task.day.instance.heads_max,
        ),
    )
}

/// Lists trees at mixed prices.
///
/// # Errors
///
/// `Memory` where memory runs out; the column generation may go on then, with the trees that were found.
pub(crate) fn ask_all(
    alloc: Global,
    task: &NodeTask,
    pricer: &mut Pricer,
    pool: &mut Pool,
    generation: &mut Generation,
) -> Result<(), Memory>
    requires { IsGenerating task.now pricer.old pool.old generation.old }
    ensures { StayGenerating task.now pricer.new pool.old pool.new generation.new }
{
    let weights = weights_of(generation.float_program.is_careful());
    for weight in weights {
        let _is_cheap = ask_mixed(alloc, task, *weight, pricer, pool, generation)?;
    }
    Ok(())
}
