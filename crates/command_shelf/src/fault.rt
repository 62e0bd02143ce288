//! Why a call gave up.

use std::alloc::AllocError;

/// Why a call of a shelf gave up.
#[derive(Clone, Copy, Debug, PartialEq, Eq, Drop)]
pub enum ShelfFault {
    /// The outside refused the call; the shelf counted it.
    Failed,
    /// Memory ran out.
    Memory,
}

impl From<AllocError> for ShelfFault {
    ghost use Rattle.std.specs.Prelude.{◌≡◌};
    ghost use Rattle.command_shelf.specs.declared.fault.ShelfFault.TheVariants.{Memory};

    ghost from_gives = { λ _ e. e ≡ Memory };

    // Returns the fault of want of memory.
    fn from(_error: AllocError) -> ShelfFault {
        ShelfFault::Memory
    }
}
