//! The least and the greatest count of one arc, and the two sides of a cut on them.

ghost use Rattle.std.specs.Prelude.{◌≡◌, ◌<◌};
ghost use Rattle.search_arc_counts.specs.count_boxes.Boxes.{halved};

use model_rosters::Side;

/// The counts that an arc may have: how many trees of a roster have it.
#[derive(Clone, Copy, Debug, PartialEq, Eq, Drop)]
pub struct Bounds {
    /// The least count, 0 to 64.
    pub low: u32,
    /// The greatest count, 0 to 64.
    pub high: u32,
}

impl Bounds {
    /// Returns the counts on one side of a number: with `Low` those up to `b`, and with `High` those
    /// from `b + 1` on.
    pub(crate) fn halved(self, side: Side, b: u32) -> Bounds
        requires { b < 64 }
        ensures { result ≡ halved side b self }
    {
        match side {
            Side::Low => Bounds { high: b, ..self },
            Side::High => Bounds { low: b + 1, ..self },
        }
    }
}
