//! Why no grammar is written.

use model_rosters::Memory;
use plan_names::RuleFault;

/// Why no grammar is written for a plan.
#[derive(Clone, Copy, Debug, PartialEq, Eq, Drop)]
pub enum WriteFault {
    /// More than 64 rules or more than 32 names; how many there would be.
    TooManyRules { rules: u64, names: u64 },
    /// The numbers or names of the plan make no sound grammar, as those of no plan that is read do.
    Unsound,
    /// Memory ran out.
    Memory,
}

impl From<Memory> for WriteFault {
    ghost use Rattle.std.specs.Prelude.{◌≡◌};
    ghost use Rattle.plan_rules.specs.declared.fault.WriteFault.TheVariants.{Memory as out_of_memory};

    ghost from_gives = { λ _ fault. fault ≡ out_of_memory };

    // Returns the fault of want of memory.
    fn from(_memory: Memory) -> WriteFault {
        WriteFault::Memory
    }
}

impl From<RuleFault> for WriteFault {
    ghost use Rattle.plan_rules.specs.Others.{IsOther};

    ghost from_gives = { λ _ fault. IsOther fault };

    // Returns the fault of rules that are not made.
    fn from(fault: RuleFault) -> WriteFault {
        match fault {
            RuleFault::TooDear => WriteFault::Unsound,
            RuleFault::Memory => WriteFault::Memory,
        }
    }
}
