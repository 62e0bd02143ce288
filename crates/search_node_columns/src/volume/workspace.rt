//! What the volume algorithm works on.

ghost use Rattle.std.specs.Prelude.{IfOk};
ghost use Rattle.tree_cheapest.specs.Pricers.{PricerView, IsMadeFor};
ghost use Rattle.lp_master_rows.specs.node_task.Tasks.{IsTask};
ghost use Rattle.search_node_columns.specs.volume.Workspaces.{IsVolumeWorkspace};

use crate::volume::path::Path;
use crate::{ColumnWorkspace, workspace_of};
use lp_master_rows::NodeTask;
use model_rosters::Memory;
use std::alloc::Global;
use tree_pool::Pool;

/// What passes work on, beside the pricer.
#[derive(Drop)]
pub(crate) struct VolumeWorkspace {
    /// The prices from pass to pass.
    pub(crate) path: Path,
    /// The trees that were found.
    pub(crate) pool: Pool,
    /// Their columns.
    pub(crate) columns: ColumnWorkspace,
}

impl VolumeWorkspace {
    /// Returns a workspace without trees for passes from prices in units of 2^-24; a row behind these has the
    /// price 0.
    ///
    /// # Errors
    ///
    /// `Memory` where memory runs out; nothing is kept then.
    pub(crate) fn new(
        alloc: Global,
        task: &NodeTask,
        start: Option<&[i128]>,
    ) -> Result<VolumeWorkspace, Memory>
        requires { IsTask task.now }
        ensures { IfOk result (λ k. (p : PricerView) → IsMadeFor task.now.day.graph.now p
            → IsVolumeWorkspace task.now p k) }
    {
        let path = Path::new(alloc, task, start)?;
        let pool = Pool::new(alloc);
        let columns = workspace_of(alloc, task, &pool, &[])?;
        Ok(VolumeWorkspace {
            path,
            pool,
            columns,
        })
    }
}
