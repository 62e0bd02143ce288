//! The master of a day's root, with no trees at first.

ghost use Rattle.std.specs.Prelude.{◌≡◌, ◌≤◌, ◌<◌, ◌^◌, length, IfOk};
ghost use Rattle.std.specs.Bool.{OnTrue};
ghost use Rattle.model_rosters.specs.Folds.{Each};
ghost use Rattle.model_rosters.specs.Sound.{IsSound};
ghost use Rattle.model_rosters.specs.SoundInstance.{IsSoundInstance};
ghost use Rattle.model_rosters.specs.Trees.{Parts, IsDayTree};
ghost use Rattle.law_bounds.specs.Infeasible.{IsPlainlyInfeasible};
ghost use Rattle.tree_graph.specs.Graphs.{IsGraph};
ghost use Rattle.tree_cheapest.specs.Pricers.{IsMadeFor};
ghost use Rattle.check_parts.specs.priced_part.Filled.{TellsDerived};
ghost use Rattle.search_masters.specs.Ends.{IsNodeCut};
ghost use Rattle.bench_runs.specs.Roots.{IsOpenDay};

use crate::fault::BenchFault;
use crate::prices::FillPrices;
use crate::pricing::graph_of;
use check_parts::{derived_names, is_plainly_infeasible};
use law_base_cuts::push_base_cuts;
use lp_fractions::Tally;
use lp_master_rows::count_rows;
use model_rosters::{Cut, Grammar, Instance, MOST_NAMES, Memory};
use search_masters::{NodeEnd, Pool, solve_node};
use std::alloc::Global;
use text_demand::read_demand;
use text_rules::read_rules;
use tree_cheapest::Pricer;
use tree_graph::Graph;
use tree_span_table::Table;

/// How many cuts the ranges of groups say at most.
const MOST_CUTS: usize = 16;

/// What the master of a root came to.
#[derive(Drop)]
pub struct RootEnd {
    /// How many rows it has.
    pub rows: usize,
    /// How many trees were priced out.
    pub trees: usize,
    /// How it ended.
    pub end: NodeEnd,
}

/// Returns of each name of the grammar, in its order, whether it derives a word of the day.
fn derived(alloc: Global, grammar: &Grammar) -> Result<[bool; MOST_NAMES], Memory>
    requires { IsSound grammar.now }
    ensures { IfOk result (TellsDerived grammar.now) }
{
    let mut table = Table::for_instance(alloc, grammar)?;
    table.least(grammar, &FillPrices { fill: 0 });
    Ok(derived_names(grammar, &table))
}

/// Says whether the day has a tree: an arc of it.
#[tactic(auto, using(crate::proofs::SomeTree::some_tree))]
fn has_tree(grammar: &Grammar, graph: &Graph) -> bool
    requires { IsGraph grammar.now graph.now }
    ensures { OnTrue result ((t : Parts) × IsDayTree grammar.now t) }
{
    if graph.arcs().len() == 0 {
        return false;
    }
    true
}

/// Accepts a day that has a tree, and of which neither the head counts nor a cell alone show that no
/// roster is allowed.
fn check_day(alloc: Global, day: &Instance, graph: &Graph) -> Result<(), BenchFault>
    requires sound { IsSoundInstance day.now }
    requires graph { IsGraph day.now.grammar graph.now }
    ensures { IfOk result (λ _. IsOpenDay day.now) }
{
    if !has_tree(&day.grammar, graph) {
        return Err(BenchFault::NoTree);
    }
    let derives = derived(alloc, &day.grammar)?;
    if is_plainly_infeasible(day, &derives) {
        return Err(BenchFault::NoRoster);
    }
    Ok(())
}

/// Returns the cuts with which each path begins.
#[tactic(auto, using(crate::proofs::RootCuts::root_cuts))]
fn base_cuts(alloc: Global, day: &Instance) -> Result<Vec<Cut>, Memory>
    requires { IsSoundInstance day.now }
    ensures cuts { IfOk result (λ cuts. Each (IsNodeCut day.now) cuts.items) }
    ensures few { IfOk result (λ cuts. length cuts.items ≤ 16) }
{
    let mut cuts = Vec::with_capacity(alloc, MOST_CUTS)?;
    push_base_cuts(&mut cuts, day);
    Ok(cuts)
}

/// Solves the master of the root, with no trees at first.
fn solve_root(
    alloc: Global,
    day: &Instance,
    graph: &Graph,
    cuts: &[Cut],
    pricer: &mut Pricer,
) -> Result<RootEnd, Memory>
    requires sound { IsSoundInstance day.now }
    requires open { IsOpenDay day.now }
    requires graph { IsGraph day.now.grammar graph.now }
    requires pricer { IsMadeFor graph.now pricer.old }
    requires cuts { Each (IsNodeCut day.now) cuts.now }
    requires few { length cuts.now ≤ 16 }
    ensures pricer { IsMadeFor graph.now pricer.new }
{
    let mut pool = Pool::new(alloc);
    let mut tally = Tally::new();
    let end = solve_node(alloc, day, graph, pricer, &mut pool, cuts, &[], &mut tally);
    let trees = pool.len();
    drop(pool);
    Ok(RootEnd {
        rows: count_rows(day, cuts),
        trees,
        end: end?,
    })
}

/// Solves the master of the root so often, and returns what the last came to; `None` where it is
/// solved 0 times.
fn solve_again(
    alloc: Global,
    day: &Instance,
    graph: &Graph,
    cuts: &[Cut],
    pricer: &mut Pricer,
    times: u32,
) -> Result<Option<RootEnd>, BenchFault>
    requires sound { IsSoundInstance day.now }
    requires open { IsOpenDay day.now }
    requires graph { IsGraph day.now.grammar graph.now }
    requires pricer { IsMadeFor graph.now pricer.old }
    requires cuts { Each (IsNodeCut day.now) cuts.now }
    requires few { length cuts.now ≤ 16 }
{
    if times == 0 {
        return Ok(None);
    }
    for _ in 1..times {
        drop(solve_root(alloc, day, graph, cuts, pricer)?);
    }
    Ok(Some(solve_root(alloc, day, graph, cuts, pricer)?))
}

/// Solves the master of the root under the cuts with which each path begins.
fn solve_open(
    alloc: Global,
    day: &Instance,
    graph: &Graph,
    pricer: &mut Pricer,
    times: u32,
) -> Result<Option<RootEnd>, BenchFault>
    requires sound { IsSoundInstance day.now }
    requires open { IsOpenDay day.now }
    requires graph { IsGraph day.now.grammar graph.now }
    requires pricer { IsMadeFor graph.now pricer.old }
{
    let cuts = base_cuts(alloc, day)?;
    solve_again(alloc, day, graph, &cuts, pricer, times)
}

/// Makes a pricer of the graph, and solves the master of the root with it.
fn solve_on(
    alloc: Global,
    day: &Instance,
    graph: &Graph,
    times: u32,
) -> Result<Option<RootEnd>, BenchFault>
    requires sound { IsSoundInstance day.now }
    requires open { IsOpenDay day.now }
    requires graph { IsGraph day.now.grammar graph.now }
{
    let mut pricer = Pricer::new(alloc, graph)?;
    let last = solve_open(alloc, day, graph, &mut pricer, times);
    drop(pricer);
    last
}

/// Solves the master of the root over the graph of a day, where the day is one that has such a master.
fn solve_checked(
    alloc: Global,
    day: &Instance,
    graph: &Graph,
    times: u32,
) -> Result<Option<RootEnd>, BenchFault>
    requires sound { IsSoundInstance day.now }
    requires graph { IsGraph day.now.grammar graph.now }
{
    check_day(alloc, day, graph)?;
    solve_on(alloc, day, graph, times)
}

/// Solves the master of the root of a day so often; `None` where that is not asked for.
fn solve_day(alloc: Global, day: &Instance, times: u32) -> Result<Option<RootEnd>, BenchFault>
    requires sound { IsSoundInstance day.now }
{
    let graph = graph_of(alloc, &day.grammar)?;
    let last = solve_checked(alloc, day, &graph, times);
    drop(graph);
    last
}

/// Reads a day of two texts.
fn read_day(alloc: Global, rules: &[u8], demand: &[u8]) -> Result<Instance, BenchFault>
    ensures { IfOk result IsSoundInstance }
{
    let grammar = read_rules(alloc, rules)?;
    let day = read_demand(alloc, grammar, demand)?;
    Ok(day)
}

/// Solves the master of the root of the day of two texts so often, each time with no trees at first,
/// and returns what the last came to; `None` where it is solved 0 times, the rest being done.
///
/// # Errors
///
/// `NoTree` where the day has no tree, `NoRoster` where the head counts or a cell alone show that it
/// has no roster, and else the fault of a text or of the graph, or `Graph` where memory runs out.
pub fn last_root(
    alloc: Global,
    rules: &[u8],
    demand: &[u8],
    times: u32,
) -> Result<Option<RootEnd>, BenchFault> {
    let day = read_day(alloc, rules, demand)?;
    let last = solve_day(alloc, &day, times);
    drop(day);
    last
}
