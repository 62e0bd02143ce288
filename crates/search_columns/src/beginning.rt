//! How a column generation begins.

ghost use Rattle.std.specs.Prelude.{◌≡◌, length, IfOk};
ghost use Rattle.tree_pool.specs.Pools.{IsPool};
ghost use Rattle.lp_master_rows.specs.node_task.Tasks.{IsTask, row_count};
ghost use Rattle.search_columns.specs.Generations.{IsGeneration};
ghost use Rattle.search_columns.specs.Tools.{MayGenerate, StayTools};

use crate::asked::Asked;
use crate::float_columns::{begin, float_program_of};
use crate::generation::{Ending, Generation};
use crate::starting::{Start, start_of};
use crate::steering::Steering;
use crate::warming::{MANY_ROWS, Warm, warm_up};
use lp_float_programs::FloatProgram;
use lp_master_rows::{NodeRows, NodeTask};
use model_rosters::{Instance, Memory};
use search_node_columns::{ColumnWorkspace, workspace_of};
use search_watch::Watch;
use std::alloc::Global;
use tree_cheapest::Pricer;
use tree_pool::Pool;

/// By what the tolerances of a float program are multiplied where it is to take less for 0.
const TIGHTER: f64 = 0.125;

/// Half the rounding loss, of which one is 2^-20, in units of 2^-32.
const HALF_LOSS: i128 = 2_048;

/// Returns how near a value may come to what prices show before a column generation ends early, in units of
/// 2^-32.
fn near_value(instance: &Instance, cuts: usize) -> i128 {
    let cells = instance.cells.len();
    let terms = usize::from(instance.grammar.periods)
        .saturating_add(cuts.saturating_mul(2))
        .saturating_add(cells);
    let loss = i128::from(instance.heads_max).saturating_mul(terms as i128);
    loss.saturating_mul(HALF_LOSS)
}

/// Returns the prices that a column generation asks at first, and when it ends.
fn asked_of(alloc: Global, task: &NodeTask, warm: &Warm, ending: Ending) -> Result<Asked, Memory>
    requires { IsTask task.now }
    ensures { IfOk result (λ a. length a.y.items ≡ row_count task.now) }
{
    let count = task.rows.right().len();
    let mut asked = Asked::new(alloc, count)?;
    asked.begin_at(warm.prices.as_slice(), warm.bound);
    if ending == Ending::Early && count >= MANY_ROWS {
        asked.end_within(near_value(task.day.instance, task.cuts.len()));
    }
    Ok(asked)
}

/// Returns a float program of the columns at a workspace, from a start.
fn begun_float_program<W: Watch>(
    alloc: Global,
    workspace: &ColumnWorkspace,
    rows: &NodeRows,
    start: &Start,
    ending: Ending,
    watch: &W,
) -> Result<FloatProgram, Memory> {
    let mut float_program = float_program_of(alloc, workspace.held.as_slice(), rows.right())?;
    if ending == Ending::Tight {
        float_program.tighten(TIGHTER);
    }
    if start.is_careful {
        float_program.be_careful();
    }
    begin(&mut float_program, start.keys.as_slice(), watch);
    Ok(float_program)
}

/// Returns a column generation from a start, whose trees and further ones of the pool are listed.
fn generation_of<W: Watch>(
    alloc: Global,
    task: &NodeTask,
    start: &Start,
    warm: &Warm,
    ending: Ending,
    pool: &Pool,
    watch: &W,
) -> Result<Generation, Memory>
    requires task { IsTask task.now }
    requires pool { IsPool task.now.day.instance.now.grammar pool.now }
    ensures { IfOk result (IsGeneration task.now pool.now) }
{
    let workspace = workspace_of(alloc, task, pool, warm.trees.as_slice())?;
    let asked = asked_of(alloc, task, warm, ending)?;
    let float_program = begun_float_program(alloc, &workspace, task.rows, start, ending, watch)?;
    Ok(Generation {
        asked,
        workspace,
        float_program,
    })
}

/// Returns a column generation from a start, which is warmed first.
fn warmed_generation<W: Watch>(
    alloc: Global,
    task: &NodeTask,
    start: &Start,
    ending: Ending,
    pricer: &mut Pricer,
    pool: &mut Pool,
    watch: &W,
) -> Result<Generation, Memory>
    requires { MayGenerate task.now pricer.old pool.old }
    ensures generation { IfOk result (IsGeneration task.now pool.new) }
    ensures tools { StayTools task.now.day pricer.new pool.old pool.new }
{
    let warm = warm_up(alloc, task, start, pricer, pool, watch)?;
    generation_of(alloc, task, start, &warm, ending, pool, watch)
}

/// Returns a column generation that has begun, from the last basis of the nearest node above that is kept.
///
/// # Errors
///
/// `Memory` where memory runs out; the pricer is still one for the graph then, and the pool has its trees
/// under their numbers, and perhaps further trees of the day.
pub(crate) fn begun_generation<W: Watch>(
    alloc: Global,
    task: &NodeTask,
    ending: Ending,
    pricer: &mut Pricer,
    pool: &mut Pool,
    steering: &mut Steering,
    watch: &W,
) -> Result<Generation, Memory>
    requires { MayGenerate task.now pricer.old pool.old }
    ensures generation { IfOk result (IsGeneration task.now pool.new) }
    ensures tools { StayTools task.now.day pricer.new pool.old pool.new }
{
    let start = start_of(alloc, task, pool, steering)?;
    warmed_generation(alloc, task, &start, ending, pricer, pool, watch)
}
