//! A widest tree.

ghost use Rattle.std.specs.Prelude.{◌<◌, IfOk, IfSome, IsTrue, length};
ghost use Rattle.search_dives.specs.Parts.{HoldsTree, CanAsk, AreTools, StayTools};

use crate::least::{find_least, pooled};
use crate::sums::{set_prices, width};
use crate::widths::Widths;
use crate::workspace::DiveWorkspace;
use lp_master_rows::NodeTask;
use model_rosters::Memory;
use tree_pool::Pool;
use tree_short_order::ShortOrder;

/// A tree of the pool, and the least sum of its arcs.
#[derive(Clone, Copy, Drop)]
pub(crate) struct Wide {
    pub column: usize,
    pub width: i64,
}

/// Leaves in the workspace's room a tree whose least sum of an arc is greatest, to a sixteenth, and says
/// whether there is a tree.
fn find_widest(task: &NodeTask, order: &mut ShortOrder, workspace: &mut DiveWorkspace) -> bool
    requires { CanAsk task.now order.old workspace.old }
    ensures found { IsTrue result → HoldsTree task.now workspace.new }
    ensures tools { CanAsk task.now order.new workspace.new }
{
    set_prices(&workspace.arcs.sums, &mut workspace.arcs.prices);
    let widths = Widths {
        graph: task.day.graph,
        prices: &workspace.arcs.prices,
    };
    find_least(&task.day, &widths, order, &mut workspace.tree).is_some()
}

/// Returns such a tree, which the pool gets where it lacks it, with its width.
///
/// # Errors
///
/// `Memory` where memory runs out; the order is still one for the graph then, and the pool has its trees
/// under their numbers, and perhaps further trees of the day.
pub(crate) fn widest(
    task: &NodeTask,
    order: &mut ShortOrder,
    pool: &mut Pool,
    workspace: &mut DiveWorkspace,
) -> Result<Option<Wide>, Memory>
    requires { AreTools task.now order.old pool.old workspace.old }
    ensures found { IfOk result (λ found. IfSome found (λ w. w.column < length pool.new)) }
    ensures tools { StayTools task.now order.new pool.old pool.new workspace.new }
{
    if !find_widest(task, order, workspace) {
        return Ok(None);
    }
    let column = pooled(&task.day, &workspace.tree, pool)?;
    let width = width(task.day.graph, pool.arcs(column), &workspace.arcs.sums);
    Ok(Some(Wide { column, width }))
}
