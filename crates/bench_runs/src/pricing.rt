//! Least sums by the table, and by passes over the graph.

ghost use Rattle.std.specs.Prelude.{IfOk};
ghost use Rattle.model_rosters.specs.Sound.{IsSound};
ghost use Rattle.tree_graph.specs.Graphs.{HasGrammar, IsGraph};
ghost use Rattle.tree_span_table.specs.Tables.{IsMadeFor};
ghost use Rattle.tree_cheapest.specs.Pricers.{IsMadeFor as IsPricerFor};

use crate::fault::BenchFault;
use crate::prices::FillPrices;
use model_rosters::Grammar;
use std::alloc::Global;
use tree_cheapest::Pricer;
use tree_graph::Graph;
use tree_pool::normalise;
use tree_span_table::Table;

/// Fills the grammar's table so often, and returns the last least sum.
fn filled(grammar: &Grammar, table: &mut Table, times: u32) -> Option<i128>
    requires sound { IsSound grammar.now }
    requires made { IsMadeFor grammar.now table.old }
{
    let mut least = None;
    for fill in 1..=times {
        least = table.least(grammar, &FillPrices { fill });
    }
    least
}

/// Returns the last least sum of so many fills of the table of a sound grammar.
pub fn last_fill(alloc: Global, grammar: &Grammar, times: u32) -> Result<Option<i128>, BenchFault>
    requires { IsSound grammar.now }
{
    let mut table = Table::for_instance(alloc, grammar)?;
    Ok(filled(grammar, &mut table, times))
}

/// Returns the graph of a sound grammar.
pub fn graph_of(alloc: Global, grammar: &Grammar) -> Result<Graph, BenchFault>
    requires { IsSound grammar.now }
    ensures { IfOk result (IsGraph grammar.now) }
{
    let normal = normalise(alloc, grammar)?;
    let graph = Graph::build(alloc, grammar, &normal);
    drop(normal);
    Ok(graph?)
}

/// Makes so many passes over the graph, and returns the last least sum.
fn passed(graph: &Graph, pricer: &mut Pricer, times: u32) -> Option<i128>
    requires graph { HasGrammar graph.now }
    requires made { IsPricerFor graph.now pricer.old }
{
    let mut least = None;
    for fill in 1..=times {
        least = pricer.cheapest(graph, &FillPrices { fill });
    }
    least
}

/// Makes a pricer and so many passes over the graph, and returns the last least sum.
fn last_pass(alloc: Global, graph: &Graph, times: u32) -> Result<Option<i128>, BenchFault>
    requires { HasGrammar graph.now }
{
    let mut pricer = Pricer::new(alloc, graph)?;
    let least = passed(graph, &mut pricer, times);
    drop(pricer);
    Ok(least)
}

/// Returns the last least sum of so many passes over the graph of a sound grammar.
pub fn last_cheapest(
    alloc: Global,
    grammar: &Grammar,
    times: u32,
) -> Result<Option<i128>, BenchFault>
    requires { IsSound grammar.now }
{
    let graph = graph_of(alloc, grammar)?;
    let least = last_pass(alloc, &graph, times);
    drop(graph);
    least
}

/// Builds the graph of a sound grammar, and returns how many arcs it has.
fn count_arcs(alloc: Global, grammar: &Grammar) -> Result<usize, BenchFault>
    requires { IsSound grammar.now }
{
    let graph = graph_of(alloc, grammar)?;
    let arcs = graph.arcs().len();
    drop(graph);
    Ok(arcs)
}

/// Builds the graph of a sound grammar so often, and returns how many arcs it has.
pub fn built(alloc: Global, grammar: &Grammar, times: u32) -> Result<usize, BenchFault>
    requires { IsSound grammar.now }
{
    let mut arcs = 0;
    for _ in 0..times {
        arcs = count_arcs(alloc, grammar)?;
    }
    Ok(arcs)
}
