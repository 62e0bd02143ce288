//! How a question ends.

ghost use Rattle.std.specs.Prelude.{◌≡◌, codes, IfOk};

use model_rosters::{List, Memory};
use std::alloc::Global;

/// How a question ends: the status, and what is said.
#[derive(Drop)]
pub struct DayAnswer {
    pub status: u8,
    pub output: List<u8>,
}

/// Says that there is no shift.
///
/// # Errors
///
/// `Memory` where memory runs out; there is no answer then.
pub(crate) fn no_shift(alloc: Global) -> Result<DayAnswer, Memory>
    ensures { IfOk result (λ a. (a.status ≡ 1) × (a.output ≡ codes "no shift\n")) }
{
    let bytes = Vec::from_slice(alloc, b"no shift\n")?;
    Ok(DayAnswer {
        status: 1,
        output: List::from_vec(bytes),
    })
}
