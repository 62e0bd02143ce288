//! The tables of a grammar's day.

ghost use Rattle.std.specs.Prelude.{IfOk};
ghost use Rattle.model_rosters.specs.Sound.{IsSound};
ghost use Rattle.check_proofs.specs.Rooms.{AreTablesFor};

use model_rosters::{Grammar, Memory};
use std::alloc::Global;
use tree_span_arcs::DayArcs;
use tree_span_table::Table;

/// What tells the trees of a grammar's day.
#[derive(Drop)]
pub(crate) struct Tables {
    /// Their least sums.
    pub sums: Table,
    /// Their arcs.
    pub arcs: DayArcs,
}

impl Tables {
    /// Returns the tables of a sound grammar.
    ///
    /// # Errors
    ///
    /// `Memory` where memory runs out; nothing is kept then.
    pub fn for_instance(alloc: Global, grammar: &Grammar) -> Result<Tables, Memory>
        requires { IsSound grammar.now }
        ensures { IfOk result (AreTablesFor grammar.now) }
    {
        let arcs = DayArcs::for_instance(alloc, grammar)?;
        let sums = Table::for_instance(alloc, grammar)?;
        Ok(Tables { sums, arcs })
    }
}
