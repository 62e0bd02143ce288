//! The public calls that solve a node's master.

ghost use Rattle.std.specs.Prelude.{◌≡◌, ◌≤◌, Bool, Option, List as Items, Ok, true, IfOk};
ghost use Rattle.model_rosters.specs.declared.instance.Prices.{Prices as PriceList};
ghost use Rattle.tree_pool.specs.Pools.{PoolTree};
ghost use Rattle.lp_master_rows.specs.node_task.Tasks.{IsTask};
ghost use Rattle.search_columns.specs.Tools.{AreTools, StayTools};
ghost use Rattle.search_masters.specs.Ends.{EndsRight};
ghost use Rattle.search_masters.specs.Tasks.{IsBusyNode, MaySolve, EndsCounted};

use crate::counting::count_end;
use crate::ends::{Cause, NodeEnd};
use crate::first::{solve_exact_first, solve_near_first};
use crate::rounding::near_rounded;
use lp_fractions::Tally;
use lp_master_rows::{Day, NodeRows, NodeTask, count_rows};
use model_rosters::{Cut, Instance, Memory};
use search_columns::{Bases, First, Hint, Steering, generation_basis};
use search_watch::{SteadyWatch, Watch};
use std::alloc::Global;
use tree_cheapest::Pricer;
use tree_graph::Graph;
use tree_pool::Pool;

/// The most rows of a master.
const ROWS: usize = 1500;

/// Solves the master of the node at a path of cuts, base cuts first, or gives it up. Nothing stops it.
///
/// Trees of the pool that are `wanted` steer the solution, the most wanted first: any list of numbers
/// is lawful. Whatever the answer, the pricer is still one made for the graph, and the pool has its
/// old trees under their numbers, and beside them only further trees of the day.
///
/// # Errors
///
/// `Memory` where memory runs out; the same holds of the pricer and of the pool then.
pub fn solve_node(
    alloc: Global,
    instance: &Instance,
    graph: &Graph,
    pricer: &mut Pricer,
    pool: &mut Pool,
    cuts: &[Cut],
    wanted: &[usize],
    tally: &mut Tally,
) -> Result<NodeEnd, Memory>
    requires node { IsBusyNode (record { instance = instance; graph = graph }) cuts.now }
    requires tools { AreTools (record { instance = instance; graph = graph }) pricer.old pool.old }
    ensures end { IfOk result (EndsRight instance.now cuts.now pool.new tally.old tally.new true) }
    ensures never { (own : Option PriceList) → result ≡ Ok (NodeEnd.Stopped own) → ⊥ }
    ensures tools { StayTools (record { instance = instance.entry; graph = graph.entry })
        pricer.new pool.old pool.new }
    ensures counts { (tally.old.wide ≤ tally.new.wide) × (tally.old.spent ≤ tally.new.spent) }
{
    let mut steering = Steering {
        wanted,
        first: First::BySize,
        bases: Bases::new(alloc),
    };
    let day = Day { instance, graph };
    solve_node_from(
        alloc,
        &day,
        cuts,
        pricer,
        pool,
        &mut steering,
        &SteadyWatch,
        tally,
    )
}

/// Solves the master of a node as `solve_node` does. The column generation for a good basis begins with that
/// of the nearest node above, if it is kept, and that of this node is kept: they are hints. A way to prices
/// is gone first, and a master is given up only where neither leads to any. Where the watch is over it stops,
/// once near prices were asked for, with the best prices that the first column generation asked at.
///
/// Trees of the pool that are wanted steer the solution, the most wanted first: any list of numbers
/// is lawful. Whatever the answer, the pricer is still one made for the graph, and the pool has its
/// old trees under their numbers, and beside them only further trees of the day.
///
/// # Errors
///
/// `Memory` where memory runs out; the same holds of the pricer and of the pool then.
pub fn solve_node_from<W: Watch>(
    alloc: Global,
    day: &Day,
    cuts: &[Cut],
    pricer: &mut Pricer,
    pool: &mut Pool,
    steering: &mut Steering,
    watch: &W,
    tally: &mut Tally,
) -> Result<NodeEnd, Memory>
    requires node { IsBusyNode day.now cuts.now }
    requires tools { AreTools day.now pricer.old pool.old }
    ensures end { IfOk result (EndsRight day.now.instance.now cuts.now pool.new tally.old tally.new
        (W.patient watch.now)) }
    ensures tools { StayTools day.now pricer.new pool.old pool.new }
    ensures counts { (tally.old.wide ≤ tally.new.wide) × (tally.old.spent ≤ tally.new.spent) }
{
    let count = count_rows(day.instance, cuts);
    if count > ROWS {
        return Ok(NodeEnd::Failed(Cause::Rows {
            count: count as u32,
        }));
    }
    let rows = NodeRows::new(alloc, day.instance, cuts)?;
    let task = NodeTask {
        day: *day,
        cuts,
        rows: &rows,
    };
    let end = solve_steered(alloc, &task, pricer, pool, steering, watch)?;
    count_end(&end, tally);
    Ok(end)
}

/// Returns the end of a node's master; where it was stopped, with the best prices that a column generation
/// asked at, if any are known that fit the node.
fn with_prices(alloc: Global, task: &NodeTask, hint: &Hint, end: NodeEnd) -> Result<NodeEnd, Memory>
    requires { IsTask task.now }
    ensures { IfOk result (λ later. (columns : Items PoolTree) (calm : Bool) →
        EndsCounted task.now columns calm end → EndsCounted task.now columns calm later) }
{
    match end {
        NodeEnd::Stopped(_) => {
            let prices = near_rounded(alloc, task, hint.best.as_slice())?;
            Ok(NodeEnd::Stopped(prices))
        }
        end => Ok(end),
    }
}

/// Solves the master of a node whose rows are there, once a column generation has ended with a basis.
fn solve_hinted<W: Watch>(
    alloc: Global,
    task: &NodeTask,
    hint: &Hint,
    pricer: &mut Pricer,
    pool: &mut Pool,
    steering: &mut Steering,
    watch: &W,
) -> Result<NodeEnd, Memory>
    requires { MaySolve task.now pricer.old pool.old }
    ensures end { IfOk result (EndsCounted task.now pool.new (W.patient watch.now)) }
    ensures tools { StayTools task.now.day pricer.new pool.old pool.new }
{
    let first = steering.first;
    if hint.is_stopped || hint.is_early || first.is_near(hint.trees.len()) {
        solve_near_first(alloc, task, hint, pricer, pool, steering, watch)
    } else {
        solve_exact_first(alloc, task, hint, pricer, pool, watch)
    }
}

/// Solves the master of a node whose rows are there, steered to the basis that a column generation ends with.
#[tactic(auto, using(search_columns::proofs::PoolGrowth::stay_chain))]
fn solve_steered<W: Watch>(
    alloc: Global,
    task: &NodeTask,
    pricer: &mut Pricer,
    pool: &mut Pool,
    steering: &mut Steering,
    watch: &W,
) -> Result<NodeEnd, Memory>
    requires { MaySolve task.now pricer.old pool.old }
    ensures end { IfOk result (EndsCounted task.now pool.new (W.patient watch.now)) }
    ensures tools { StayTools task.now.day pricer.new pool.old pool.new }
{
    let first = steering.first;
    let hint = generation_basis(alloc, task, first.ending(), pricer, pool, steering, watch)?;
    let end = solve_hinted(alloc, task, &hint, pricer, pool, steering, watch)?;
    with_prices(alloc, task, &hint, end)
}
