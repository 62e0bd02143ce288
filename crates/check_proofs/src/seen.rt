//! What was seen of a text.

ghost use Rattle.std.specs.Prelude.{◌≡◌, None, [], IfOk};

use crate::walk::Walk;
use check_parts::ShiftWorkspace;
use model_rosters::Memory;
use std::alloc::Global;

/// What was seen of a text. Its memory serves one text after another.
#[derive(Drop)]
pub(crate) struct Seen {
    pub cost: Option<u64>,
    pub bound: Option<u64>,
    pub shifts: ShiftWorkspace,
    /// The walk over its nodes.
    pub walk: Walk,
}

impl Seen {
    /// Nothing was seen. It takes all its memory here.
    ///
    /// # Errors
    ///
    /// `Memory` where memory runs out; nothing is kept then.
    pub(crate) fn new(alloc: Global) -> Result<Seen, Memory>
        ensures { IfOk result (λ s. s.shifts ≡ []) }
    {
        Ok(Seen {
            cost: None,
            bound: None,
            shifts: ShiftWorkspace::new(alloc)?,
            walk: Walk::new(),
        })
    }

    /// Forgets what was seen. Its memory stays.
    pub(crate) fn clear(&mut self)
        ensures { self.new ≡ record {
          cost = None;
          bound = None;
          shifts = [];
          walk = record { nodes = 0; shown = None; why = None };
        } }
    {
        self.cost = None;
        self.bound = None;
        self.shifts.clear();
        self.walk = Walk::new();
    }
}
