//! A list of its own.

ghost use Rattle.std.specs.Prelude.{◌≡◌, IfOk};

use model_rosters::{List, Memory};
use std::alloc::Global;

/// A list of its own with the same bytes.
///
/// # Errors
///
/// `Memory` where memory runs out; nothing is kept then.
pub fn copy(alloc: Global, bytes: &[u8]) -> Result<List<u8>, Memory>
    ensures { IfOk result (λ l. l ≡ bytes.now) }
{
    let copied = Vec::from_slice(alloc, bytes)?;
    Ok(List::from_vec(copied))
}
