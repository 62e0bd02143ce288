//! Why counts are not split.

use model_rosters::Memory;

/// Why counts are not split into trees.
#[derive(Clone, Copy, Debug, PartialEq, Eq, Drop)]
pub enum SplitFault {
    /// The node is made and used by different sums of counts, and no list of trees has them.
    Unbalanced { node: u32, made: u64, used: u64 },
    /// Memory ran out.
    Memory,
}

impl From<Memory> for SplitFault {
    ghost use Rattle.std.specs.Prelude.{◌≡◌};
    ghost use Rattle.search_arc_counts.specs.declared.roster_split.fault.SplitFault.TheVariants.{Memory as out_of_memory};

    ghost from_gives = { λ _ fault. fault ≡ out_of_memory };

    // Returns the fault of want of memory.
    fn from(_memory: Memory) -> SplitFault {
        SplitFault::Memory
    }
}
