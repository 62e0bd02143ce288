//! Numbers that look like chance.

/// What the draws of a turn begin with, beside its number.
const FIRST: u64 = 88_172_645_463_325_252;

/// What a turn's number is multiplied with, so that the draws of near turns differ.
const SPREAD: u64 = 11_400_714_819_323_198_485;

/// Numbers that look like chance, the same ones each time.
#[derive(Clone, Copy, Drop)]
pub(crate) struct Draws {
    state: u64,
}

impl Draws {
    /// Returns the draws of a turn from the first one on.
    pub(crate) fn of_turn(turn: u32) -> Draws {
        Draws {
            state: u64::from(turn).wrapping_mul(SPREAD).wrapping_add(FIRST),
        }
    }

    /// Draws a number below a count; 0 where the count is 0.
    pub(crate) fn below(&mut self, count: u32) -> u32 {
        self.state = self
            .state
            .wrapping_mul(6_364_136_223_846_793_005)
            .wrapping_add(1_442_695_040_888_963_407);
        if count == 0 {
            return 0;
        }
        ((self.state >> 33) % u64::from(count)).min(4_294_967_295) as u32
    }
}
