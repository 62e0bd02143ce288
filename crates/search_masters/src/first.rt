//! Which way the call goes first.

ghost use Rattle.std.specs.Prelude.{IfOk};
ghost use Rattle.search_columns.specs.Tools.{StayTools};
ghost use Rattle.search_masters.specs.Tasks.{MaySolve, EndsCounted};

use crate::counting::is_without_prices;
use crate::ends::NodeEnd;
use crate::exact::solve_rows;
use crate::near::near_end;
use lp_master_rows::NodeTask;
use model_rosters::Memory;
use search_columns::{Ending, Hint, Steering, generation_basis};
use search_watch::Watch;
use std::alloc::Global;
use tree_cheapest::Pricer;
use tree_pool::Pool;

/// Asks for near prices, and solves the master exactly where they are not shown to be best.
fn solve_near_or_exact<W: Watch>(
    alloc: Global,
    task: &NodeTask,
    hint: &Hint,
    pricer: &mut Pricer,
    pool: &mut Pool,
    watch: &W,
) -> Result<NodeEnd, Memory>
    requires { MaySolve task.now pricer.old pool.old }
    ensures end { IfOk result (EndsCounted task.now pool.new (W.patient watch.now)) }
    ensures tools { StayTools task.now.day pricer.new pool.old pool.new }
{
    let near = near_end(alloc, task, &hint.near, pool, pricer)?;
    match near {
        Some(end) => Ok(end),
        None if watch.is_over() => Ok(NodeEnd::Stopped(None)),
        None => solve_rows(alloc, task, hint, pricer, pool, watch),
    }
}

/// Generates columns once more at a float program that takes less for 0, asks for near prices, and solves the
/// master exactly where they are not shown to be best.
#[tactic(auto, using(search_columns::proofs::PoolGrowth::stay_chain))]
fn solve_tightly<W: Watch>(
    alloc: Global,
    task: &NodeTask,
    pricer: &mut Pricer,
    pool: &mut Pool,
    steering: &mut Steering,
    watch: &W,
) -> Result<NodeEnd, Memory>
    requires { MaySolve task.now pricer.old pool.old }
    ensures end { IfOk result (EndsCounted task.now pool.new (W.patient watch.now)) }
    ensures tools { StayTools task.now.day pricer.new pool.old pool.new }
{
    let hint = generation_basis(alloc, task, Ending::Tight, pricer, pool, steering, watch)?;
    solve_near_or_exact(alloc, task, &hint, pricer, pool, watch)
}

/// Generates columns on until no tree is cheap, and asks for near prices; where they are not shown to be best
/// it goes on at a float program that takes less for 0.
#[tactic(auto, using(search_columns::proofs::PoolGrowth::stay_chain))]
fn solve_generated_on<W: Watch>(
    alloc: Global,
    task: &NodeTask,
    pricer: &mut Pricer,
    pool: &mut Pool,
    steering: &mut Steering,
    watch: &W,
) -> Result<NodeEnd, Memory>
    requires { MaySolve task.now pricer.old pool.old }
    ensures end { IfOk result (EndsCounted task.now pool.new (W.patient watch.now)) }
    ensures tools { StayTools task.now.day pricer.new pool.old pool.new }
{
    let hint = generation_basis(alloc, task, Ending::Whole, pricer, pool, steering, watch)?;
    let near = near_end(alloc, task, &hint.near, pool, pricer)?;
    match near {
        Some(end) => Ok(end),
        None if watch.is_over() => Ok(NodeEnd::Stopped(None)),
        None => solve_tightly(alloc, task, pricer, pool, steering, watch),
    }
}

/// Asks for near prices. Where they are not shown to be best, it stops if the watch is over; else it
/// Generates columns on first if the column generation ended early, then at a float program that takes less
/// for 0, and at last it solves the master exactly.
///
/// # Errors
///
/// `Memory` where memory runs out; the pricer is still one for the graph then, and the pool has its trees
/// under their numbers, and perhaps further trees of the day.
pub(crate) fn solve_near_first<W: Watch>(
    alloc: Global,
    task: &NodeTask,
    hint: &Hint,
    pricer: &mut Pricer,
    pool: &mut Pool,
    steering: &mut Steering,
    watch: &W,
) -> Result<NodeEnd, Memory>
    requires { MaySolve task.now pricer.old pool.old }
    ensures end { IfOk result (EndsCounted task.now pool.new (W.patient watch.now)) }
    ensures tools { StayTools task.now.day pricer.new pool.old pool.new }
{
    let near = near_end(alloc, task, &hint.near, pool, pricer)?;
    match near {
        Some(end) => Ok(end),
        None if watch.is_over() => Ok(NodeEnd::Stopped(None)),
        None if hint.is_early => solve_generated_on(alloc, task, pricer, pool, steering, watch),
        None => solve_tightly(alloc, task, pricer, pool, steering, watch),
    }
}

/// Solves the master exactly, and asks for near prices where it is given up or stopped.
///
/// # Errors
///
/// `Memory` where memory runs out; the pricer is still one for the graph then, and the pool has its trees
/// under their numbers, and perhaps further trees of the day.
pub(crate) fn solve_exact_first<W: Watch>(
    alloc: Global,
    task: &NodeTask,
    hint: &Hint,
    pricer: &mut Pricer,
    pool: &mut Pool,
    watch: &W,
) -> Result<NodeEnd, Memory>
    requires { MaySolve task.now pricer.old pool.old }
    ensures end { IfOk result (EndsCounted task.now pool.new (W.patient watch.now)) }
    ensures tools { StayTools task.now.day pricer.new pool.old pool.new }
{
    let end = solve_rows(alloc, task, hint, pricer, pool, watch)?;
    if is_without_prices(&end) {
        let near = near_end(alloc, task, &hint.near, pool, pricer)?;
        if let Some(near) = near {
            return Ok(near);
        }
    }
    Ok(end)
}
