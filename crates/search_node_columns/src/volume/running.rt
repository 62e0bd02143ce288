//! The whole call of the volume algorithm.

ghost use Rattle.std.specs.Prelude.{◌≡◌, IfOk};
ghost use Rattle.tree_cheapest.specs.Pricers.{IsMadeFor};
ghost use Rattle.lp_master_rows.specs.node_task.Tasks.{IsTask};
ghost use Rattle.tree_pool.specs.Pools.{IsPool};

use crate::volume::found::{Volume, found_trees};
use crate::volume::passes::take_passes;
use crate::volume::workspace::VolumeWorkspace;
use lp_master_rows::NodeTask;
use model_rosters::Memory;
use search_watch::Watch;
use std::alloc::Global;
use tree_cheapest::Pricer;

/// Returns what passes have led to.
fn volume_of(alloc: Global, task: &NodeTask, workspace: VolumeWorkspace) -> Result<Volume, Memory>
    ensures { IfOk result (λ v. v.pool ≡ workspace.pool) }
{
    let prices = workspace.path.list_prices(alloc)?;
    let trees = found_trees(alloc, task, &workspace.pool, prices.as_slice())?;
    Ok(Volume {
        prices,
        bound: workspace.path.bound(),
        passes: workspace.path.passes(),
        pool: workspace.pool,
        trees,
    })
}

/// Takes at most so many passes of the volume algorithm over the rows of a node.
///
/// A pass asks for the cheapest tree of the day at prices of the rows: as many of it as the heads allow show
/// a bound. Each tree has a share in a mean of what trees bring to the rows, and the next prices are a step
/// from the best ones along what the mean lacks. The first ones are those of `start`, in units of 2^-24, of
/// which a row behind the last has the price 0; without a start all are 0. It ends where steps become too
/// small to be worth a pass, and behind its first pass where the watch is over. Trees come into a pool of its
/// own.
///
/// # Errors
///
/// `Memory` where memory runs out; the pricer is as good as before.
pub fn volume<W: Watch>(
    alloc: Global,
    task: &NodeTask,
    start: Option<&[i128]>,
    passes: u32,
    pricer: &mut Pricer,
    watch: &W,
) -> Result<Volume, Memory>
    requires task { IsTask task.now }
    requires made { IsMadeFor task.now.day.graph.now pricer.old }
    ensures made { IsMadeFor task.now.day.graph.now pricer.new }
    ensures pool { IfOk result (λ v. IsPool task.now.day.instance.now.grammar v.pool) }
{
    let mut workspace = VolumeWorkspace::new(alloc, task, start)?;
    take_passes(alloc, task, passes, pricer, &mut workspace, watch)?;
    volume_of(alloc, task, workspace)
}
