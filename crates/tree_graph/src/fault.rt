//! Why no graph is built.

use model_rosters::Memory;

/// Why no graph is built.
#[derive(Clone, Copy, Debug, PartialEq, Eq, Drop)]
pub enum GraphFault {
    /// The instance has more than 100,000 arcs; `count` is how many.
    TooManyArcs { count: u64 },
    /// Memory ran out.
    Memory,
}

impl From<Memory> for GraphFault {
    ghost use Rattle.std.specs.Prelude.{◌≡◌};
    ghost use Rattle.tree_graph.specs.declared.fault.GraphFault.TheVariants.{Memory as out_of_memory};

    ghost from_gives = { λ _ fault. fault ≡ out_of_memory };

    // Returns the fault of want of memory.
    fn from(_memory: Memory) -> GraphFault {
        GraphFault::Memory
    }
}
