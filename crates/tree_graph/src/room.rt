//! Lists with room.

ghost use Rattle.std.specs.Prelude.{◌≡◌, [], IfOk};

use model_rosters::{List, Memory};
use std::alloc::Global;

/// Returns a list of no items, with room for so many.
///
/// # Errors
///
/// `Memory` where memory runs out; nothing is kept then.
pub fn with_room<T>(alloc: Global, items: usize) -> Result<List<T>, Memory>
    ensures { IfOk result (λ list. list ≡ []) }
{
    let list = Vec::with_capacity(alloc, items)?;
    Ok(List::from_vec(list))
}
