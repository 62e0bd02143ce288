//! Trees copied between two pools.

ghost use Rattle.std.specs.Prelude.{◌<◌, All, IfOk, OnOk, length};
ghost use Rattle.tree_pool.specs.Pools.{IsPool};
ghost use Rattle.lp_master_rows.specs.search_day.Days.{IsDay};
ghost use Rattle.lp_master_rows.specs.search_day.Rooms.{Grows};
ghost use Rattle.search_moves.specs.Drafts.{IsDraft};
ghost use Rattle.search_moves.specs.Tools.{MayCopy};

use crate::draft::Draft;
use lp_master_rows::Day;
use model_rosters::{List, Memory};
use std::alloc::Global;
use tree_pool::Pool;

/// Puts a tree of a pool into another pool, where it lacks it, and returns its number there.
fn copied(day: &Day, from: &Pool, column: usize, to: &mut Pool) -> Result<usize, Memory>
    requires day { IsDay day.now }
    requires from { IsPool day.now.instance.now.grammar from.now }
    requires column { column < length from.now }
    requires to { IsPool day.now.instance.now.grammar to.old }
    ensures to { Grows day.now to.old to.new }
    ensures within { IfOk result (λ c. c < length to.new) }
{
    to.add(&day.instance.grammar, from.tree(column).steps.as_slice())
}

/// Adds trees of a pool to a draft without trees, and puts them into another pool.
fn draft_all(
    day: &Day,
    from: &Pool,
    columns: &[usize],
    to: &mut Pool,
    draft: &mut Draft,
) -> Result<(), Memory>
    requires pools { MayCopy day.now from.now columns.now to.old }
    requires draft { IsDraft day.now.instance.now 0 draft.old }
    ensures to { IsPool day.now.instance.now.grammar to.new }
    ensures draft { OnOk result (IsDraft day.now.instance.now (length to.new) draft.new) }
{
    for &column in columns {
        let copy = copied(day, from, column, to)?;
        draft.push(day.instance, to, copy)?;
    }
    Ok(())
}

/// Returns a draft of trees of a pool, which are put into another pool.
///
/// # Errors
///
/// `Memory` where memory runs out; the other pool still has only trees of the day then.
pub(crate) fn drafted(
    alloc: Global,
    day: &Day,
    from: &Pool,
    columns: &[usize],
    to: &mut Pool,
) -> Result<Draft, Memory>
    requires pools { MayCopy day.now from.now columns.now to.old }
    ensures to { IsPool day.now.instance.now.grammar to.new }
    ensures draft { IfOk result (IsDraft day.now.instance.now (length to.new)) }
{
    let mut draft = Draft::new(alloc, day.instance)?;
    match draft_all(day, from, columns, to, &mut draft) {
        Ok(()) => Ok(draft),
        Err(fault) => {
            drop(draft);
            Err(fault)
        }
    }
}

/// Puts trees of a pool into another pool, and returns their numbers there.
///
/// # Errors
///
/// `Memory` where memory runs out; the other pool has its trees under their numbers then, and perhaps further
/// trees of the day.
pub(crate) fn copied_all(
    alloc: Global,
    day: &Day,
    from: &Pool,
    columns: &[usize],
    to: &mut Pool,
) -> Result<List<usize>, Memory>
    requires pools { MayCopy day.now from.now columns.now to.old }
    ensures to { Grows day.now to.old to.new }
    ensures within { IfOk result (λ found. All (λ c. c < length to.new) found) }
{
    let mut found = List::new(alloc);
    for &column in columns {
        found.push(copied(day, from, column, to)?)?;
    }
    Ok(found)
}
