//! The room for the balances of counts at the nodes.

ghost use Rattle.std.specs.Prelude.{IfOk};
ghost use Rattle.model_rosters.specs.Sound.{IsSound};

use crate::pinned_part::places::place_count;
use model_rosters::{Grammar, Memory};
use std::alloc::Global;

/// The room in which the counts of arcs are balanced: a number for each name, each suffix and each
/// letter of a day.
#[derive(Drop)]
pub struct Balances {
    pub(crate) nodes: Vec<i64>,
}

impl Balances {
    ghost use Rattle.check_parts.specs.pinned_part.Rooms.{IsRoomFor};

    /// Returns a room for a grammar. It takes all its memory here: eight bytes for each name and for
    /// seven suffixes of each rule on each span of the day, and for 96 periods of each code.
    ///
    /// # Errors
    ///
    /// `Memory` where memory runs out; nothing is kept then.
    pub fn for_instance(alloc: Global, grammar: &Grammar) -> Result<Balances, Memory>
        requires { IsSound grammar.now }
        ensures { IfOk result (IsRoomFor grammar.now) }
    {
        let nodes = vec![in alloc; 0; place_count(grammar)]?;
        Ok(Balances { nodes })
    }
}
