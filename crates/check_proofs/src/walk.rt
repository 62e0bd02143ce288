//! Where a walk stands, and its first cause.

ghost use Rattle.std.specs.Prelude.{◌≡◌};
ghost use Rattle.check_certificates.specs.certificate_laws.Causes.{cause_number};
ghost use Rattle.check_proofs.specs.Walked.{lesser_cause};

use check_certificates::Why;

/// Where a walk over the nodes of a certificate stands.
#[derive(Clone, Copy, Drop)]
pub(crate) struct Walk {
    /// How many nodes were seen.
    pub nodes: u32,
    /// What the whole tree shows, once it was seen.
    pub shown: Option<u64>,
    /// The first cause of least number among the nodes.
    pub why: Option<Why>,
}

impl Walk {
    /// Returns a walk that has seen no node.
    pub(crate) fn new() -> Walk
        ensures { result ≡ record { nodes = 0; shown = None; why = None } }
    {
        Walk {
            nodes: 0,
            shown: None,
            why: None,
        }
    }
}

/// Returns the number of a cause.
fn cause_number(why: Why) -> u8
    ensures { result ≡ cause_number why }
{
    match why {
        Why::NotAShift { .. } => 1,
        Why::ShiftCost { .. } => 2,
        Why::WrongHeads { .. } => 3,
        Why::WrongCost { .. } => 4,
        Why::NotAnArc { .. } => 5,
        Why::EmptyHalf { .. } => 6,
        Why::NotPinned { .. } => 7,
        Why::BoundTooHigh { .. } => 8,
        Why::Outside { .. } => 9,
    }
}

/// Returns the cause of lesser number, and the first of two of one number.
pub(crate) fn lesser_cause(first: Option<Why>, second: Option<Why>) -> Option<Why>
    ensures { result ≡ lesser_cause first second }
{
    match (first, second) {
        (Some(old), Some(new)) if cause_number(new) < cause_number(old) => second,
        (Some(_), _) => first,
        (None, _) => second,
    }
}
