//! Why rules are not made.

use model_rosters::Memory;

/// Why the rules of a name are not made.
#[derive(Clone, Copy, Debug, PartialEq, Eq, Drop)]
pub enum RuleFault {
    /// A letter costs 2^32 units or more in some period.
    TooDear,
    /// Memory ran out.
    Memory,
}

impl From<Memory> for RuleFault {
    ghost use Rattle.std.specs.Prelude.{◌≡◌};
    ghost use Rattle.plan_names.specs.declared.fault.RuleFault.TheVariants.{Memory as out_of_memory};

    ghost from_gives = { λ _ fault. fault ≡ out_of_memory };

    // Returns the fault of want of memory.
    fn from(_memory: Memory) -> RuleFault {
        RuleFault::Memory
    }
}
