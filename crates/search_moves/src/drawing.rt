//! Numbers that look like chance.

ghost use Rattle.std.specs.Prelude.{◌<◌};

/// What the draws of a turn begin with, beside its number.
const FIRST: u64 = 88_172_645_463_325_252;

/// What a turn's number is multiplied with, so that the draws of near turns differ.
const SPREAD: u64 = 11_400_714_819_323_198_485;

/// Numbers that look like chance, the same ones each time.
#[derive(Clone, Copy, Drop)]
pub(crate) struct Draws {
    state: u64,
}

impl Draws {
    /// Returns the draws of a turn from the first one on.
    pub fn of_turn(turn: u32) -> Draws {
        Draws {
            state: u64::from(turn).wrapping_mul(SPREAD).wrapping_add(FIRST),
        }
    }

    /// Returns other draws, which these numbers begin.
    pub fn others(&mut self) -> Draws {
        Draws::of_turn(self.below(1 << 31) as u32)
    }

    /// Draws a number below a count.
    pub fn below(&mut self, count: usize) -> usize
        requires { 0 < count }
        ensures { result < count }
    {
        self.state = self
            .state
            .wrapping_mul(6_364_136_223_846_793_005)
            .wrapping_add(1_442_695_040_888_963_407);
        (self.state >> 33) as usize % count
    }
}
