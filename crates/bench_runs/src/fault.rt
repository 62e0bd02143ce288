//! Why a run did nothing.

use model_rosters::Memory;
use text_demand::DemandFault;
use text_rules::RulesFault;
use tree_graph::GraphFault;

/// Why nothing was done.
#[derive(Clone, Copy, Debug, Drop)]
pub enum BenchFault {
    Rules(RulesFault),
    Demand(DemandFault),
    Graph(GraphFault),
    /// The grammar has no sound day.
    NoDay,
    /// The day has no tree.
    NoTree,
    /// The head counts or a cell alone show that the day has no roster.
    NoRoster,
}

impl From<RulesFault> for BenchFault {
    fn from(fault: RulesFault) -> BenchFault {
        BenchFault::Rules(fault)
    }
}

impl From<DemandFault> for BenchFault {
    fn from(fault: DemandFault) -> BenchFault {
        BenchFault::Demand(fault)
    }
}

impl From<GraphFault> for BenchFault {
    fn from(fault: GraphFault) -> BenchFault {
        BenchFault::Graph(fault)
    }
}

impl From<Memory> for BenchFault {
    fn from(_memory: Memory) -> BenchFault {
        BenchFault::Graph(GraphFault::Memory)
    }
}
