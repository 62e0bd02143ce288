//! The passes of the volume algorithm.

ghost use Rattle.lp_master_rows.specs.node_task.Tasks.{IsTask};
ghost use Rattle.search_node_columns.specs.volume.Workspaces.{IsVolumeWorkspace};

use crate::volume::workspace::VolumeWorkspace;
use crate::{first_wide, list_cheapest};
use lp_master_rows::NodeTask;
use model_rosters::Memory;
use search_watch::{Watch, Work};
use std::alloc::Global;
use tree_cheapest::Pricer;

/// The unit of prices, one in 2^24.
const KAPPA: i128 = 16_777_216;

/// Returns a bound in units of 2^-24 as a whole number, rounded down; none where it is below 0.
pub fn whole_bound(bound: i128) -> Option<u64> {
    u64::try_from(bound.div_euclid(KAPPA)).ok()
}

/// Lists a tree of least reduced cost at the prices that are asked at, where that is negative, and returns
/// its column.
fn ask(
    alloc: Global,
    task: &NodeTask,
    pricer: &mut Pricer,
    workspace: &mut VolumeWorkspace,
) -> Result<Option<usize>, Memory>
    requires task { IsTask task.now }
    requires workspace { IsVolumeWorkspace task.now pricer.old workspace.old }
    ensures { IsVolumeWorkspace task.now pricer.new workspace.new }
{
    let y = workspace.path.asked.as_slice();
    if first_wide(y, KAPPA).is_some() {
        return Ok(None);
    }
    list_cheapest(
        alloc,
        task,
        y,
        KAPPA,
        pricer,
        &mut workspace.pool,
        &mut workspace.columns,
    )
}

/// Takes a pass: steps, asks for a tree there, and notes what it shows. Says whether a further one is worth
/// its time.
fn take_pass(
    alloc: Global,
    task: &NodeTask,
    pricer: &mut Pricer,
    workspace: &mut VolumeWorkspace,
) -> Result<bool, Memory>
    requires task { IsTask task.now }
    requires workspace { IsVolumeWorkspace task.now pricer.old workspace.old }
    ensures { IsVolumeWorkspace task.now pricer.new workspace.new }
{
    workspace.path.step(task.rows);
    let Some(column) = ask(alloc, task, pricer, workspace)? else {
        return Ok(false);
    };
    let Some(held) = workspace.columns.held.as_slice().get(column) else {
        return Ok(false);
    };
    Ok(workspace.path.note(task, held))
}

/// Tells a watch how many trees were found, and what the best prices show.
fn tell<W: Watch>(workspace: &VolumeWorkspace, watch: &W) {
    watch.tell(Work::Prices {
        trees: workspace.pool.len() as u64,
        bound: whole_bound(workspace.path.bound()),
    });
}

/// Takes at most so many passes. A watch that is over ends them behind the first one, which shows a bound.
///
/// # Errors
///
/// `Memory` where memory runs out; the pricer is still one for the graph then, and the pool has only trees of
/// the day.
pub(crate) fn take_passes<W: Watch>(
    alloc: Global,
    task: &NodeTask,
    count: u32,
    pricer: &mut Pricer,
    workspace: &mut VolumeWorkspace,
    watch: &W,
) -> Result<(), Memory>
    requires task { IsTask task.now }
    requires workspace { IsVolumeWorkspace task.now pricer.old workspace.old }
    ensures { IsVolumeWorkspace task.now pricer.new workspace.new }
{
    for pass in 0..count {
        if pass > 0 && watch.is_over() {
            return Ok(());
        }
        let goes_on = take_pass(alloc, task, pricer, workspace)?;
        tell(workspace, watch);
        if !goes_on {
            return Ok(());
        }
    }
    Ok(())
}
