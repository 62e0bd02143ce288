//! The rooms that a dive works in.

ghost use Rattle.std.specs.Prelude.{◌≡◌, IfOk, length};
ghost use Rattle.lp_master_rows.specs.node_task.Tasks.{IsTask};
ghost use Rattle.search_dives.specs.Parts.{number_count, IsQuote, AreArcSums, IsWorkspace};

use lp_master_rows::NodeTask;
use model_rosters::{Memory, PriceRoom, TreeRoom};
use std::alloc::Global;
use tree_graph::Graph;

/// The prices at which trees are asked for.
#[derive(Drop)]
pub(crate) struct Quote {
    /// Those of the rows, in units of 2^-24.
    pub y: Vec<i128>,
    /// Those of the cells, of both rows of the heads and of the cuts.
    pub numbers: Vec<i128>,
    /// Room for them.
    pub room: PriceRoom,
}

/// Weights summed by arc.
#[derive(Drop)]
pub(crate) struct ArcSums {
    /// The weight of the trees with each arc of the graph, in units of 2^-32.
    pub sums: Vec<i64>,
    /// What each arc costs where a widest tree is looked for.
    pub prices: Vec<i128>,
}

/// What a dive works on, beside its program.
#[derive(Drop)]
pub(crate) struct DiveWorkspace {
    pub quote: Quote,
    pub arcs: ArcSums,
    /// Room for one tree.
    pub tree: TreeRoom,
}

/// Returns so many zeros.
fn zeros(alloc: Global, count: usize) -> Result<Vec<i128>, Memory>
    ensures { IfOk result (λ v. length v.items ≡ count) }
{
    Ok(vec![in alloc; 0i128; count]?)
}

/// Returns how many numbers the prices of the rows make by cells and cuts: one for each cell, for both rows
/// of the heads and for each cut.
fn numbers_of(task: &NodeTask) -> usize
    requires { IsTask task.now }
    ensures { result ≡ number_count task.now }
{
    task.day.instance.cells.len() + 2 + task.cuts.len()
}

/// Returns prices of 0.
fn quote_of(alloc: Global, task: &NodeTask) -> Result<Quote, Memory>
    requires { IsTask task.now }
    ensures { IfOk result (IsQuote task.now) }
{
    let y = zeros(alloc, task.rows.right().len())?;
    let numbers = zeros(alloc, numbers_of(task))?;
    let room = PriceRoom::for_cuts(alloc, task.day.instance, task.cuts.len())?;
    Ok(Quote { y, numbers, room })
}

/// Returns sums of 0.
fn arc_sums_of(alloc: Global, graph: &Graph) -> Result<ArcSums, Memory>
    ensures { IfOk result AreArcSums }
{
    let sums = vec![in alloc; 0i64; graph.arcs().len()]?;
    let prices = zeros(alloc, graph.arcs().len())?;
    Ok(ArcSums { sums, prices })
}

impl DiveWorkspace {
    /// Returns a workspace for a dive at a node.
    ///
    /// # Errors
    ///
    /// `Memory` where memory runs out; nothing is kept then.
    pub fn new(alloc: Global, task: &NodeTask) -> Result<DiveWorkspace, Memory>
        requires { IsTask task.now }
        ensures { IfOk result (IsWorkspace task.now) }
    {
        let quote = quote_of(alloc, task)?;
        let arcs = arc_sums_of(alloc, task.day.graph)?;
        let tree = TreeRoom::for_grammar(alloc, &task.day.instance.grammar)?;
        Ok(DiveWorkspace { quote, arcs, tree })
    }
}
