//! Turns without holes.

/// After so many nodes without gain holes rest.
const IDLE_NODES: u32 = 3;

/// For so many turns holes rest.
const REST: u32 = 4;

/// When holes are opened: after some nodes without gain they rest for some turns.
#[derive(Clone, Copy, Drop)]
pub(crate) struct Rests {
    /// How many nodes in a row had no gain.
    idle: u32,
    /// For how many turns they rest still.
    left: u32,
}

impl Rests {
    /// Returns what stands before the first node.
    pub(crate) fn new() -> Rests {
        Rests { idle: 0, left: 0 }
    }

    /// Takes a turn, and says whether holes are opened in it.
    pub(crate) fn take_turn(&mut self) -> bool {
        if self.left == 0 {
            return true;
        }
        self.left = self.left.saturating_sub(1);
        false
    }

    /// Notes whether a node's holes had a gain.
    pub(crate) fn note(&mut self, has_gain: bool) {
        if has_gain {
            self.idle = 0;
            return;
        }
        self.idle = self.idle.saturating_add(1);
        if self.idle >= IDLE_NODES {
            self.idle = 0;
            self.left = REST;
        }
    }
}
