//! Which trees a step fixes.

ghost use Rattle.std.specs.Prelude.{OnOk, length};
ghost use Rattle.search_dives.specs.Parts.{IsProgram, IsDiving, StayTools};

use crate::descent::Descent;
use crate::sums::{LEAST, ONE, add};
use crate::widest::widest;
use lp_master_rows::NodeTask;
use model_rosters::Memory;
use std::alloc::Global;
use tree_pool::Pool;
use tree_short_order::ShortOrder;

/// Trees at least this wide are fixed, 12/16.
const WIDE: i64 = 3_221_225_472;

/// Where none is, further trees beside the first one are fixed from this width on, 1/2.
const HALF: i64 = 2_147_483_648;

/// How many trees are fixed in a step at most: no day has more employees.
const MOST_FIXED: u32 = 64;

/// How many trees a step has fixed.
#[derive(Clone, Copy, Drop)]
struct Taken {
    /// Trees that were wide.
    wide: u32,
    /// All.
    all: u32,
}

impl Taken {
    /// Says whether a tree of this width is fixed too, where the weights add up to so many trees: a wide
    /// one; else where there is none yet, or where it is half as wide as a tree and few are fixed.
    fn takes(self, width: i64, left: i64) -> bool {
        if width >= WIDE {
            return true;
        }
        if self.all == 0 {
            return width >= LEAST;
        }
        self.wide == 0 && width >= HALF && i64::from(self.all) < left / 4
    }

    /// Returns the count with a tree of this width.
    fn with(self, width: i64) -> Taken {
        Taken {
            wide: self.wide.saturating_add(u32::from(width >= WIDE)),
            all: self.all.saturating_add(1),
        }
    }
}

/// Fixes a widest tree where that is to be, and returns the count with it.
fn fix_one(
    alloc: Global,
    task: &NodeTask,
    taken: Taken,
    left: i64,
    order: &mut ShortOrder,
    pool: &mut Pool,
    descent: &mut Descent,
) -> Result<Option<Taken>, Memory>
    requires { IsDiving task.now order.old pool.old descent.old }
    ensures program { OnOk result (IsProgram (length pool.new) descent.new.program) }
    ensures tools { StayTools task.now order.new pool.old pool.new descent.new.workspace }
{
    let graph = task.day.graph;
    descent.program.touch(graph.arcs().len());
    let Some(wide) = widest(task, order, pool, &mut descent.workspace)? else {
        return Ok(None);
    };
    if !taken.takes(wide.width, left) {
        return Ok(None);
    }
    descent.program.fix(alloc, task, pool, wide.column)?;
    let sums = &mut descent.workspace.arcs.sums;
    add(graph, pool.arcs(wide.column), -ONE, sums);
    Ok(Some(taken.with(wide.width)))
}

/// Fixes trees, where the weights add up to so many, and says whether any was fixed.
///
/// # Errors
///
/// `Memory` where memory runs out; nothing is said of the program then. The order and the workspace are still
/// those of the graph and of the node, and the pool has its trees under their numbers, and perhaps further
/// trees of the day.
pub(crate) fn fix_some(
    alloc: Global,
    task: &NodeTask,
    left: i64,
    order: &mut ShortOrder,
    pool: &mut Pool,
    descent: &mut Descent,
) -> Result<bool, Memory>
    requires { IsDiving task.now order.old pool.old descent.old }
    ensures program { OnOk result (IsProgram (length pool.new) descent.new.program) }
    ensures tools { StayTools task.now order.new pool.old pool.new descent.new.workspace }
{
    let mut taken = Taken { wide: 0, all: 0 };
    for _ in 0..MOST_FIXED.min(task.day.instance.heads_max) {
        let Some(more) = fix_one(alloc, task, taken, left, order, pool, descent)? else {
            return Ok(taken.all > 0);
        };
        taken = more;
    }
    Ok(taken.all > 0)
}
