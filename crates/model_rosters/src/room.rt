//! The room for a tree.

ghost use Rattle.std.specs.Prelude.{◌≡◌, ◌<◌, [], ◌∷◌, ◌++◌, length, IfOk};
ghost use Rattle.model_rosters.specs.Sound.{IsSound};
ghost use Rattle.model_rosters.specs.Room.{most_uses};

use crate::grammar::{Grammar, Step};
use crate::memory::Memory;
use std::alloc::Global;
use std::marker::Model;

/// Room for the steps of any tree of a grammar. A contract sees the steps, and the most that there
/// may be.
#[derive(Drop)]
pub struct TreeRoom {
    held: Vec<Step>,
    limit: usize,
}

impl Model for TreeRoom {
    ghost use Rattle.std.specs.Prelude.{◌≤◌, length, vec_capacity};
    ghost use Rattle.model_rosters.specs.Room.{RoomView};

    ghost Value = { RoomView };

    ghost view = { λ r. record { steps = r.held.items; most = r.limit } };

    ghost invariant = { λ r. r.limit ≤ vec_capacity r.held };
}

impl TreeRoom {
    /// Returns a room with no step that has taken the memory for every tree of a sound grammar:
    /// `(2n - 1) * names` steps, where a day has `n` periods.
    ///
    /// # Errors
    ///
    /// `Memory` where memory runs out; nothing is kept then.
    pub fn for_grammar(alloc: Global, grammar: &Grammar) -> Result<TreeRoom, Memory>
        requires { IsSound grammar.now }
        ensures empty { IfOk result (λ r. r.steps ≡ []) }
        ensures most { IfOk result (λ r. r.most ≡ most_uses grammar.now) }
    {
        let limit = (2 * grammar.periods as usize - 1) * grammar.names.len();
        let held = Vec::with_capacity(alloc, limit)?;
        Ok(TreeRoom { held, limit })
    }

    /// Returns the steps.
    pub fn steps(&self) -> &[Step]
        ensures { result.now ≡ self.now.steps }
    {
        self.held.as_slice()
    }

    /// Leaves no step. Takes no memory.
    pub fn clear(&mut self)
        ensures { self.new ≡ record self.old { steps = [] } }
    {
        self.held.clear();
    }

    /// Adds a step at the end. Takes no memory.
    pub fn push(&mut self, step: Step)
        requires { length self.old.steps < self.old.most }
        ensures { self.new ≡ record self.old { steps = self.old.steps ++ step ∷ [] } }
    {
        let _ = self.held.push(step);
    }
}
