//! How many trees go.

use crate::drawing::Draws;

/// What is drawn is added to a size, in eighths of a tree.
const SPREAD: u32 = 24;

/// No hole is greater, in eighths of a tree.
const MOST: u32 = 192;

/// How many trees go at least.
const FEWEST: u32 = 2;

/// How many trees of a roster go, in eighths: what is tried next, and at least.
#[derive(Clone, Copy, Drop)]
pub(crate) struct HoleSize {
    eighths: u32,
    least: u32,
}

impl HoleSize {
    /// Returns the first size of small holes.
    pub(crate) fn small() -> HoleSize {
        HoleSize {
            eighths: 56,
            least: 40,
        }
    }

    /// Returns the first size of great holes.
    pub(crate) fn great() -> HoleSize {
        HoleSize {
            eighths: 80,
            least: 48,
        }
    }

    /// Returns a smaller one.
    pub(crate) fn shrunk(self) -> HoleSize {
        let eighths = self
            .eighths
            .saturating_sub(self.eighths / 8)
            .max(self.least);
        HoleSize {
            eighths,
            least: self.least,
        }
    }

    /// Returns a greater one.
    pub(crate) fn grown(self) -> HoleSize {
        let eighths = self.eighths.saturating_add(self.eighths / 8).min(MOST);
        HoleSize {
            eighths,
            least: self.least,
        }
    }

    /// Draws how many trees go.
    pub(crate) fn draw(self, draws: &mut Draws) -> usize {
        let eighths = self.eighths.saturating_add(draws.below(SPREAD));
        (eighths / 8).saturating_sub(1).max(FEWEST) as usize
    }
}
