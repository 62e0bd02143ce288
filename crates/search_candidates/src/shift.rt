//! The shift that a tree spells.

ghost use Rattle.std.specs.Prelude.{◌<◌, IfOk, length};
ghost use Rattle.tree_pool.specs.Pools.{IsPool};
ghost use Rattle.search_candidates.specs.Rosters.{IsWorkspaceFor};
ghost use Rattle.search_candidates.specs.Spelled.{IsShiftAt};

use crate::group::group_of;
use crate::price::price_of;
use crate::word::word_of;
use crate::workspace::RosterWorkspace;
use model_rosters::{Instance, Memory, Shift};
use std::alloc::Global;
use tree_pool::Pool;

/// Returns the shift that a tree of the pool spells, at its price.
///
/// # Errors
///
/// `Memory` where memory runs out; the workspace is still one for the instance then.
pub fn shift_of(
    alloc: Global,
    instance: &Instance,
    pool: &Pool,
    column: usize,
    workspace: &mut RosterWorkspace,
) -> Result<Shift, Memory>
    requires pool { IsPool instance.now.grammar pool.now }
    requires column { column < length pool.now }
    requires workspace { IsWorkspaceFor instance.now workspace.old }
    ensures shift { IfOk result (IsShiftAt instance.now pool.now column) }
    ensures workspace { IsWorkspaceFor instance.now workspace.new }
{
    let group = group_of(instance, pool.tree(column).steps.as_slice());
    let word = word_of(alloc, &instance.grammar, pool.codes(column))?;
    let price = price_of(instance, group, word.as_slice(), workspace);
    Ok(Shift { group, word, price })
}
