//! Least sums by passes with prices on the arcs of so many cuts.

ghost use Rattle.std.specs.Prelude.{◌≡◌, ◌≤◌, ◌^◌, ◌<◌, All, IfOk, length};
ghost use Rattle.model_rosters.specs.SoundInstance.{IsSoundInstance};
ghost use Rattle.model_rosters.specs.Sums.{Within};
ghost use Rattle.tree_graph.specs.Graphs.{IsGraph, HasGrammar};
ghost use Rattle.tree_cheapest.specs.Pricers.{IsMadeFor};

use crate::fault::BenchFault;
use crate::pricing::graph_of;
use model_rosters::{Cut, Grammar, Instance, List, Memory, PriceRoom, Side, is_sound_instance};
use std::alloc::Global;
use tree_cheapest::Pricer;
use tree_graph::Graph;

/// The day of a grammar, with at most one employee and no demands.
fn day_of(alloc: Global, grammar: Grammar) -> Result<Instance, BenchFault>
    ensures sound { IfOk result IsSoundInstance }
    ensures cells { IfOk result (λ day. length day.cells ≡ 0) }
{
    let day = Instance {
        grammar,
        heads_min: 0,
        heads_max: 1,
        groups: List::new(alloc),
        cells: List::new(alloc),
    };
    if is_sound_instance(&day) {
        return Ok(day);
    }
    Err(BenchFault::NoDay)
}

/// Cuts of so many of the graph's arcs, spread over all.
fn cuts_of(alloc: Global, graph: &Graph, count: u16) -> Result<List<Cut>, Memory>
    ensures { IfOk result (λ cuts. length cuts ≤ count) }
{
    let arcs = graph.arcs();
    let mut cuts = List::new(alloc);
    for number in 0..count {
        let place = usize::from(number) * arcs.len() / usize::from(count);
        if let Some(arc) = arcs.get(place) {
            let arc = *arc;
            let side = Side::Low;
            cuts.push(Cut { arc, side, b: 0 })?;
        }
    }
    Ok(cuts)
}

/// What a tree is paid for the arc of one of the cuts, 1 to 100 times the factor.
fn payment(number: usize, factor: u64) -> i128
    ensures { Within (2 ^ 80) result }
{
    ((1 + number as u128 % 100) * factor as u128) as i128
}

/// What a tree is paid for the arcs of so many cuts, 1 to 100 times the factor.
fn paid_for(alloc: Global, count: usize, factor: u64) -> Result<List<i128>, Memory>
    ensures count { IfOk result (λ paid. length paid ≡ count) }
    ensures small { IfOk result (λ paid. All (Within (2 ^ 80)) paid) }
{
    let mut paid = List::new(alloc);
    for number in 0..count {
        paid.push(payment(number, factor))?;
    }
    Ok(paid)
}

/// A room that holds what so many cuts pay, at rule costs, each times the factor.
fn prices_of(
    alloc: Global,
    day: &Instance,
    graph: &Graph,
    count: u16,
    factor: u64,
) -> Result<PriceRoom, BenchFault>
    requires sound { IsSoundInstance day.now }
    requires cells { length day.now.cells ≡ 0 }
{
    let cuts = cuts_of(alloc, graph, count)?;
    let paid = paid_for(alloc, cuts.len(), factor)?;
    let mut prices = PriceRoom::for_cuts(alloc, day, cuts.len())?;
    let unit = u128::from(factor.max(1));
    prices.set_wide(day, unit, &[], paid.as_slice(), cuts.as_slice());
    Ok(prices)
}

/// Makes so many passes over the graph at the same prices, and returns the last least sum.
fn passed(graph: &Graph, pricer: &mut Pricer, prices: &PriceRoom, times: u32) -> Option<i128>
    requires graph { HasGrammar graph.now }
    requires made { IsMadeFor graph.now pricer.old }
{
    let mut least = None;
    for _ in 0..times {
        least = pricer.cheapest(graph, prices);
    }
    least
}

/// Makes a pricer and so many passes over the graph at the same prices, and returns the last least sum.
fn priced_at(
    alloc: Global,
    graph: &Graph,
    prices: &PriceRoom,
    times: u32,
) -> Result<Option<i128>, BenchFault>
    requires { HasGrammar graph.now }
{
    let mut pricer = Pricer::new(alloc, graph)?;
    let least = passed(graph, &mut pricer, prices, times);
    drop(pricer);
    Ok(least)
}

/// Passes over the graph with a price on the arc of each of so many cuts, and the factor.
fn priced(
    alloc: Global,
    day: &Instance,
    graph: &Graph,
    count: u16,
    factor: u64,
    times: u32,
) -> Result<Option<i128>, BenchFault>
    requires sound { IsSoundInstance day.now }
    requires cells { length day.now.cells ≡ 0 }
    requires graph { IsGraph day.now.grammar graph.now }
{
    let prices = prices_of(alloc, day, graph, count, factor)?;
    let least = priced_at(alloc, graph, &prices, times);
    drop(prices);
    least
}

/// Builds the graph of a day, and passes over it so.
fn priced_day(
    alloc: Global,
    day: &Instance,
    count: u16,
    factor: u64,
    times: u32,
) -> Result<Option<i128>, BenchFault>
    requires sound { IsSoundInstance day.now }
    requires cells { length day.now.cells ≡ 0 }
{
    let graph = graph_of(alloc, &day.grammar)?;
    let least = priced(alloc, day, &graph, count, factor, times);
    drop(graph);
    least
}

/// Returns the last least sum of so many passes over the graph of a grammar, with a price on the arc
/// of each of so many cuts. All prices are multiples of the factor.
///
/// # Errors
///
/// `NoDay` where the grammar has no sound day, `Graph` where it has no graph or memory runs out.
pub fn last_priced(
    alloc: Global,
    grammar: Grammar,
    times: u32,
    count: u16,
    factor: u64,
) -> Result<Option<i128>, BenchFault> {
    let day = day_of(alloc, grammar)?;
    let least = priced_day(alloc, &day, count, factor, times);
    drop(day);
    least
}
