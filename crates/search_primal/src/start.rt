//! What a search begins with of an old certificate.

ghost use Rattle.std.specs.Prelude.{◌≡◌, []};

use check_certificates::Node;
use model_rosters::Shift;

/// What a search begins with of an old certificate, of this day or of another one.
#[derive(Clone, Copy, Drop)]
pub struct Start<'a> {
    /// The shifts of its roster; what they state of their prices does not matter.
    pub shifts: &'a [Shift],
    /// Its nodes, which are hints.
    pub nodes: &'a [Node],
}

impl<'a> Start<'a> {
    /// Returns that there is no old certificate.
    pub fn none() -> Start<'a>
        ensures shifts { result.shifts.now ≡ [] }
        ensures nodes { result.nodes.now ≡ [] }
    {
        Start {
            shifts: &[],
            nodes: &[],
        }
    }
}
