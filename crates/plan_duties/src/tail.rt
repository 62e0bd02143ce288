//! What stands behind the `=`.

ghost use Rattle.std.specs.Prelude.{◌≡◌, ◌≤◌, IfOk, length};
ghost use Rattle.plan_duties.specs.Tails.{no_tail, parts_done};
ghost use Rattle.plan_fields.specs.Steps.{Reads};

use model_rosters::List;
use plan_faults::{LineFault, PartFault};
use plan_meaning::{Lengths, Part, Times};
use std::alloc::Global;

/// A duty has at most so many parts.
const MOST_PARTS: usize = 8;

/// Beside what the next part stands.
#[derive(Clone, Copy, Drop)]
pub(crate) enum Side {
    /// No part stands yet.
    Nothing,
    /// A stretch of work.
    Work,
    /// A rest of this pause.
    Pause { code: u8 },
}

/// What stands behind the `=` of a duty line, so far.
#[derive(Drop)]
pub(crate) struct Tail {
    pub(crate) parts: List<Part>,
    /// The last of them.
    pub(crate) side: Side,
    /// Whether something that stands behind the parts was read.
    pub(crate) closed: bool,
    pub(crate) begins: Option<Times>,
    pub(crate) ends: Option<Times>,
    pub(crate) stretch: Option<Lengths>,
    pub(crate) plus: Option<u32>,
}

/// Returns what stands behind the `=` before any word is read.
pub(crate) fn no_tail(alloc: Global) -> Tail
    ensures { result ≡ no_tail }
{
    Tail {
        parts: List::new(alloc),
        side: Side::Nothing,
        closed: false,
        begins: None,
        ends: None,
        stretch: None,
        plus: None,
    }
}

/// Ends the parts, of which 1 to 8 can stand.
///
/// # Errors
///
/// `NoParts` and `ManyParts`.
#[tactic(auto, unfolding(crate::specs::Tails::parts_done))]
pub(crate) fn parts_done(tail: &mut Tail) -> Result<(), LineFault>
    ensures value { Reads (λ _. (tail.new)) result (parts_done tail.old) }
    ensures few { IfOk result (λ _. length tail.new.parts ≤ 8) }
{
    let parts = tail.parts.len();
    if parts == 0 {
        return Err(LineFault::Part {
            fault: PartFault::NoParts,
        });
    }
    if MOST_PARTS < parts {
        return Err(LineFault::Part {
            fault: PartFault::ManyParts {
                parts: parts as u64,
            },
        });
    }
    tail.closed = true;
    Ok(())
}
