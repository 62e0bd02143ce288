//! All that is still to be derived.

ghost use Rattle.std.specs.Prelude.{◌≡◌, [], ◌∷◌, OnOk, IfOk, MatchOption};

use crate::frame::Frame;
use model_rosters::Memory;
use std::alloc::Global;
use std::marker::Model;

/// What is still to be derived, side by side. A contract sees the frames in the order of their spans.
#[derive(Drop)]
pub struct Pending {
    // The first frame stands last.
    frames: Vec<Frame>,
}

impl Model for Pending {
    ghost use Rattle.std.specs.Prelude.{List, reverse};
    ghost use Rattle.tree_ranking.specs.declared.frame.Frame.{Frame};

    ghost Value = { List Frame };

    ghost view = { λ p. reverse p.frames.items };
}

impl Pending {
    /// Returns nothing to derive.
    pub fn new(alloc: Global) -> Pending
        ensures { result ≡ [] }
    {
        Pending {
            frames: Vec::new(alloc),
        }
    }

    /// Puts a frame before the others.
    ///
    /// # Errors
    ///
    /// `Memory` where memory runs out; nothing is said of the frames then.
    pub fn push(&mut self, frame: Frame) -> Result<(), Memory>
        ensures { OnOk result (self.new ≡ frame ∷ self.old) }
    {
        self.frames.push(frame)?;
        Ok(())
    }

    /// Takes the first frame; `None` where there is none.
    pub fn pop(&mut self) -> Option<Frame>
        ensures { MatchOption result ((self.old ≡ []) × (self.new ≡ [])) (λ f. self.old ≡ f ∷ self.new) }
    {
        self.frames.pop()
    }

    /// Returns the same frames once more.
    ///
    /// # Errors
    ///
    /// `Memory` where memory runs out; nothing is kept then.
    pub fn copy(&self, alloc: Global) -> Result<Pending, Memory>
        ensures { IfOk result (λ p. p ≡ self.now) }
    {
        let frames = Vec::from_slice(alloc, self.frames.as_slice())?;
        Ok(Pending { frames })
    }
}
