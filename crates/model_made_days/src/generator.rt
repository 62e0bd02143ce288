//! Numbers, drawn one after another.

ghost use Rattle.std.specs.Prelude.{◌≡◌, ◌≤◌, ◌<◌};
ghost use Rattle.model_made_days.specs.Draws.{next, answer};

use std::marker::Model;

/// Draws numbers, one after another, as its first state decides; contracts see it as its state.
#[derive(Drop)]
pub(crate) struct Generator {
    state: u64,
}

impl Model for Generator {
    ghost use Rattle.std.specs.Prelude.{ℕ};

    ghost Value = { ℕ };

    ghost view = { λ g. g.state };
}

impl Generator {
    /// Returns the generator whose first state is the number.
    pub(crate) fn new(number: u32) -> Self
        ensures { result ≡ number }
    {
        Generator {
            state: u64::from(number),
        }
    }

    /// Goes on to the next state, and draws a number below `limit` from it.
    #[tactic(auto, using(crate::proofs::Draws::next_wraps, crate::proofs::Draws::answer_shifts))]
    pub(crate) fn draw(&mut self, limit: u32) -> u32
        requires { 1 ≤ limit }
        ensures state { self.new ≡ next self.old }
        ensures value { result ≡ answer self.new limit }
        ensures less { result < limit }
    {
        self.state = self
            .state
            .wrapping_mul(6364136223846793005)
            .wrapping_add(1442695040888963407);
        ((self.state >> 33) % u64::from(limit)) as u32
    }
}
