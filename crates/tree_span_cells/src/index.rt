//! The spans of a day in a row.

ghost use Rattle.std.specs.Prelude.{◌≡◌, ◌≤◌, ◌<◌, ◌+◌, ◌*◌, ◌/◌};
ghost use Rattle.model_rosters.specs.Grammar.{InDay};
ghost use Rattle.tree_span_cells.specs.Places.{shorter, place_of};

use std::marker::Model;

/// The spans of a day, numbered from 0 by length and then by start. A contract sees the number of
/// the day's periods.
#[derive(Clone, Copy, Debug, Drop)]
pub struct SpanIndex {
    periods: u8,
}

impl Model for SpanIndex {
    ghost use Rattle.std.specs.Prelude.{ℕ, ◌<◌, ◌^◌};

    ghost Value = { ℕ };

    ghost view = { λ s. s.periods };

    ghost inverse = { λ n. record { periods = n } };
}

// How many spans of a day are at most `len` long.
fn shorter(periods: usize, len: usize) -> usize
    requires periods { periods < 256 }
    requires len { len ≤ periods }
    ensures { result ≡ shorter periods len }
{
    len * (2 * periods + 1 - len) / 2
}

impl SpanIndex {
    /// Returns the spans of a day of this many periods.
    pub fn new(periods: u8) -> SpanIndex
        ensures { result ≡ periods }
    {
        SpanIndex { periods }
    }

    /// Returns how many spans there are, `n * (n + 1) / 2` for `n` periods.
    pub fn count(&self) -> usize
        ensures spans { result ≡ shorter self.now self.now }
        ensures sum { result ≡ self.now * (self.now + 1) / 2 }
    {
        let periods = self.periods as usize;
        shorter(periods, periods)
    }

    /// Returns the place of the span of `len` periods that begins at `start`.
    pub fn place(&self, start: u8, len: u8) -> usize
        requires { InDay self.now start len }
        ensures place { result ≡ place_of self.now start len }
        ensures within { result < shorter self.now self.now }
    {
        shorter(self.periods as usize, len as usize - 1) + (start as usize - 1)
    }

    /// Returns the start and the length of the span at a place.
    pub fn span(&self, place: usize) -> (u8, u8)
        requires { place < shorter self.now self.now }
        ensures day { InDay self.now result.0 result.1 }
        ensures place { place_of self.now result.0 result.1 ≡ place }
    {
        let periods = self.periods as usize;
        let mut len = 1usize;
        let mut rest = place;
        while len < periods && periods + 1 - len <= rest {
            rest -= periods + 1 - len;
            len += 1;
        }
        (rest as u8 + 1, len as u8)
    }
}
