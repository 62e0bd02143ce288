//! The dive, step by step.

ghost use Rattle.std.specs.Prelude.{ℕ, ◌<◌, ◌≤◌, All, IfOk, IfSome, OnOk, length};
ghost use Rattle.model_rosters.specs.Folds.{Each};
ghost use Rattle.model_rosters.specs.Limits.{IsSmallCut};
ghost use Rattle.law_bounds.specs.master_laws.Rows.{rows_of};
ghost use Rattle.tree_short_order.specs.Shorts.{IsShortFor};
ghost use Rattle.tree_pool.specs.Pools.{IsPool};
ghost use Rattle.lp_master_rows.specs.search_day.Days.{IsDay};
ghost use Rattle.lp_master_rows.specs.search_day.Rooms.{Grows};
ghost use Rattle.lp_master_rows.specs.node_task.Tasks.{IsTask};
ghost use Rattle.search_dives.specs.Parts.{AreFewer, IsProgram, MayDive, HasBegun, HasDived, IsDiving, IsRun, StayTools};

use crate::asking::ask;
use crate::descent::Descent;
use crate::fixing::fix_some;
use crate::program::Program;
use crate::start::DiveStart;
use crate::sums::ONE;
use crate::workspace::DiveWorkspace;
use lp_float_programs::{FloatSolved, LastBasis, Limits};
use lp_master_rows::{Day, NodeRows, NodeTask};
use model_rosters::{Cut, List, Memory};
use search_watch::Watch;
use std::alloc::Global;
use std::mem;
use tree_graph::Graph;
use tree_pool::Pool;
use tree_short_order::ShortOrder;

/// How many steps a dive takes.
const STEPS: u32 = 200;

/// A dive takes no further step once it has touched so many times an entry for each pair of rows and an arc
/// of the graph: with a full inverse that is as many pivots, and as many passes. It is there so that no dive
/// takes a search's time. Other numbers were not tried.
const WORK: u64 = 4_000;

/// The steps of a run before its first prices, and the primal steps between two of them for each row.
const DUAL: u32 = 3_000;

const PRIMAL: usize = 2;

/// Returns how many entries and arcs a dive may touch.
fn budget_of(rows: &NodeRows, graph: &Graph) -> u64 {
    let count = rows.right().len() as u64;
    let arcs = graph.arcs().len() as u64;
    count
        .saturating_mul(count)
        .saturating_add(arcs)
        .saturating_mul(WORK)
}

/// Runs the program, and says whether its values can be used: not where the watch is over.
fn run<W: Watch>(program: &mut Program, watch: &W) -> bool
    ensures { IsRun program.old program.new }
{
    let primal = program
        .float_program
        .rows()
        .saturating_mul(PRIMAL)
        .min(10_000) as u32;
    let end = program
        .float_program
        .run(Limits { dual: DUAL, primal }, watch);
    program.is_solved = end == FloatSolved::Optimal;
    (program.is_solved || end == FloatSolved::Spent) && !watch.is_over()
}

/// Runs the program with further trees that are cheap, until its value is near to what prices show of it, or
/// they show that hardly a roster costs less than this. Says whether its values can be used.
fn solve<W: Watch>(
    alloc: Global,
    task: &NodeTask,
    cost: u64,
    order: &mut ShortOrder,
    pool: &mut Pool,
    descent: &mut Descent,
    watch: &W,
) -> Result<bool, Memory>
    requires { IsDiving task.now order.old pool.old descent.old }
    ensures program { OnOk result (IsProgram (length pool.new) descent.new.program) }
    ensures tools { StayTools task.now order.new pool.old pool.new descent.new.workspace }
{
    for _ in 0..descent.program.asks.rounds() {
        if !run(&mut descent.program, watch) {
            return Ok(false);
        }
        let is_cheap = ask(alloc, task, order, pool, descent)?;
        if !is_cheap || descent.program.is_settled(cost) {
            return Ok(true);
        }
    }
    Ok(run(&mut descent.program, watch))
}

/// Takes a step: solves the program, and fixes trees by its weights. Says whether any was fixed, and none is
/// where the watch is over, or where the program's value is above the cost below which a roster is looked
/// for.
fn step<W: Watch>(
    alloc: Global,
    task: &NodeTask,
    cost: u64,
    order: &mut ShortOrder,
    pool: &mut Pool,
    descent: &mut Descent,
    watch: &W,
) -> Result<bool, Memory>
    requires { IsDiving task.now order.old pool.old descent.old }
    ensures program { OnOk result (IsProgram (length pool.new) descent.new.program) }
    ensures tools { StayTools task.now order.new pool.old pool.new descent.new.workspace }
{
    let graph = task.day.graph;
    if descent.program.work() > budget_of(task.rows, graph) {
        return Ok(false);
    }
    if !solve(alloc, task, cost, order, pool, descent, watch)? {
        return Ok(false);
    }
    descent.program.is_over = descent.program.is_dear(cost);
    if descent.program.is_over {
        return Ok(false);
    }
    let sums = &mut descent.workspace.arcs.sums;
    let left = descent.program.sum_up(graph, pool, sums) / ONE;
    fix_some(alloc, task, left, order, pool, descent)
}

/// Takes steps while trees are fixed.
fn step_down<W: Watch>(
    alloc: Global,
    task: &NodeTask,
    cost: u64,
    order: &mut ShortOrder,
    pool: &mut Pool,
    descent: &mut Descent,
    watch: &W,
) -> Result<(), Memory>
    requires { IsDiving task.now order.old pool.old descent.old }
    ensures program { OnOk result (IsProgram (length pool.new) descent.new.program) }
    ensures tools { StayTools task.now order.new pool.old pool.new descent.new.workspace }
{
    for _ in 0..STEPS {
        if !step(alloc, task, cost, order, pool, descent, watch)? {
            return Ok(());
        }
    }
    Ok(())
}

/// Returns how many of the pool's last trees are listed: twice as many as there are rows.
fn last_of(task: &NodeTask) -> usize {
    task.rows.right().len().saturating_mul(2)
}

/// Lists the trees of the last column generation's basis and the pool's last ones, and starts the float
/// program from that basis. Says whether it has started.
fn begin_at(
    alloc: Global,
    task: &NodeTask,
    pool: &Pool,
    last: &LastBasis,
    program: &mut Program,
) -> Result<bool, Memory>
    requires { IsProgram (length pool.now) program.old }
    ensures { OnOk result (IsProgram (length pool.now) program.new) }
{
    let keys = last.keys(alloc)?;
    if keys.is_empty() {
        return Ok(false);
    }
    let trees = last.trees.as_slice();
    program.list_all(alloc, task, pool, trees)?;
    program.list_last(alloc, task, pool, last_of(task), trees)?;
    Ok(program.float_program.start(keys.as_slice()).is_ok())
}

/// Lists trees that are wanted and the pool's last ones, and starts the float program where each row has more
/// than it needs.
fn begin_beyond(
    alloc: Global,
    task: &NodeTask,
    pool: &Pool,
    wanted: &[usize],
    program: &mut Program,
) -> Result<(), Memory>
    requires { IsProgram (length pool.now) program.old }
    ensures { OnOk result (IsProgram (length pool.now) program.new) }
{
    program.list_all(alloc, task, pool, wanted)?;
    program.list_last(alloc, task, pool, last_of(task), &[])?;
    let _started = program.float_program.start_beyond();
    Ok(())
}

/// Lists trees of the pool, and starts the float program.
fn begin(
    alloc: Global,
    task: &NodeTask,
    pool: &Pool,
    start: &DiveStart,
    program: &mut Program,
) -> Result<(), Memory>
    requires { IsProgram (length pool.now) program.old }
    ensures { OnOk result (IsProgram (length pool.now) program.new) }
{
    if begin_at(alloc, task, pool, start.last, program)? {
        return Ok(());
    }
    begin_beyond(alloc, task, pool, start.wanted, program)
}

/// Returns a program that has begun, with trees of the pool.
fn begun_with(
    alloc: Global,
    task: &NodeTask,
    pool: &Pool,
    start: &DiveStart,
) -> Result<Program, Memory>
    requires { IsTask task.now }
    ensures { IfOk result (IsProgram (length pool.now)) }
{
    let mut program = Program::new(alloc, task, start.asks)?;
    match begin(alloc, task, pool, start, &mut program) {
        Ok(()) => Ok(program),
        Err(fault) => {
            drop(program);
            Err(fault)
        }
    }
}

/// Returns a dive that has begun, with trees of the pool.
fn descent_of(
    alloc: Global,
    task: &NodeTask,
    pool: &Pool,
    start: &DiveStart,
) -> Result<Descent, Memory>
    requires { IsTask task.now }
    ensures { IfOk result (HasBegun task.now (length pool.now)) }
{
    let program = begun_with(alloc, task, pool, start)?;
    match DiveWorkspace::new(alloc, task) {
        Ok(workspace) => Ok(Descent { program, workspace }),
        Err(fault) => {
            drop(program);
            Err(fault)
        }
    }
}

/// Returns the trees that a dive fixed; `None` where it was dropped.
fn kept(is_dropped: bool, fixed: List<usize>) -> Option<List<usize>>
    ensures { (n : ℕ) → AreFewer n fixed → IfSome result (AreFewer n) }
{
    if is_dropped { None } else { Some(fixed) }
}

/// Dives from a node, of which the master's rows are given, and returns the trees that it fixed; `None` where
/// it is dropped.
fn dive_over<W: Watch>(
    alloc: Global,
    task: &NodeTask,
    start: &DiveStart,
    cost: u64,
    order: &mut ShortOrder,
    pool: &mut Pool,
    watch: &W,
) -> Result<Option<List<usize>>, Memory>
    requires { MayDive task.now order.old pool.old }
    ensures within { IfOk result (λ some. IfSome some (AreFewer (length pool.new))) }
    ensures lent { HasDived task.now order.new pool.old pool.new }
{
    let mut descent = descent_of(alloc, task, pool, start)?;
    let end = step_down(alloc, task, cost, order, pool, &mut descent, watch);
    let is_dropped = descent.program.is_over;
    let fixed = mem::replace(&mut descent.program.fixed, List::new(alloc));
    drop(descent);
    match end {
        Ok(()) => Ok(kept(is_dropped, fixed)),
        Err(fault) => Err(fault),
    }
}

/// Dives from the node at a path of cuts, base cuts first, whose master has at most 1,500 rows, and returns
/// the trees of the pool that it fixed: the begin of a roster, or all of it. It is `None` where the dive is
/// dropped.
///
/// It solves the node's program at a float program, fixes a few trees that its weights come near to, takes
/// them off the program, and goes on so until no tree has weight. Once its value shows that hardly a roster
/// with the fixed trees costs less than `cost`, it is dropped. It begins from `start`, whatever that holds,
/// beside the last trees of the pool. Where the watch is over no further tree is fixed.
///
/// # Errors
///
/// `Memory` where memory runs out; the pool may have further trees.
pub fn dive<W: Watch>(
    alloc: Global,
    day: &Day,
    cuts: &[Cut],
    start: &DiveStart,
    cost: u64,
    order: &mut ShortOrder,
    pool: &mut Pool,
    watch: &W,
) -> Result<Option<List<usize>>, Memory>
    requires day { IsDay day.now }
    requires cuts { Each IsSmallCut cuts.now }
    requires small { length (rows_of day.now.instance.now cuts.now) ≤ 1500 }
    requires order { IsShortFor day.now.graph.now order.old }
    requires pool { IsPool day.now.instance.now.grammar pool.old }
    ensures within { IfOk result (λ some. IfSome some (λ found. All (λ c. c < length pool.new) found)) }
    ensures order { IsShortFor day.now.graph.now order.new }
    ensures pool { Grows day.now pool.old pool.new }
{
    let rows = NodeRows::new(alloc, day.instance, cuts)?;
    let task = NodeTask {
        day: *day,
        cuts,
        rows: &rows,
    };
    let found = dive_over(alloc, &task, start, cost, order, pool, watch);
    drop(rows);
    found
}
