//! What it takes to price words.

ghost use Rattle.std.specs.Prelude.{IfOk};
ghost use Rattle.model_rosters.specs.SoundInstance.{IsSoundInstance};
ghost use Rattle.search_candidates.specs.Rosters.{IsWorkspaceFor};

use check_parts::ShiftWorkspace;
use model_rosters::{Instance, Memory};
use std::alloc::Global;
use tree_span_table::Table;

/// What it takes to price words: a table, room for 64 shifts, and the last prices that were asked for.
#[derive(Drop)]
pub struct RosterWorkspace {
    pub(crate) table: Table,
    pub(crate) room: ShiftWorkspace,
    pub(crate) known: ShiftWorkspace,
}

impl RosterWorkspace {
    /// Returns a workspace for the rosters of an instance. It takes all its memory here.
    ///
    /// # Errors
    ///
    /// `Memory` where memory runs out; nothing is kept then.
    pub fn for_instance(alloc: Global, instance: &Instance) -> Result<RosterWorkspace, Memory>
        requires { IsSoundInstance instance.now }
        ensures { IfOk result (IsWorkspaceFor instance.now) }
    {
        let table = Table::for_instance(alloc, &instance.grammar)?;
        let room = ShiftWorkspace::new(alloc)?;
        let known = ShiftWorkspace::new(alloc)?;
        Ok(RosterWorkspace { table, room, known })
    }
}
