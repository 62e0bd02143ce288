//! Least sums at prices, in numbers of both widths (`tree_cheapest`).

ghost use Rattle.std.specs.Prelude.{[], ◌^◌, IsTrue};
ghost use Rattle.model_rosters.specs.PriceLimits.{FitPrices};
ghost use Rattle.model_rosters.specs.PriceRooms.{IsRoomFor};
ghost use Rattle.model_rosters.specs.SoundInstance.{IsSoundInstance};
ghost use Rattle.model_rosters.specs.Sums.{Within};
ghost use Rattle.tree_graph.specs.Graphs.{HasGrammar};
ghost use Rattle.tree_cheapest.specs.Pricers.{IsMadeFor};

use crate::days::sound_graph;
use model_rosters::{Instance, PriceRoom};
use model_sample_days::{BLOCK_PARTS, sound_day};
use std::alloc::Global;
use std::test::Fail;
use tree_cheapest::Pricer;
use tree_graph::Graph;

fn is_price(price: i128) -> bool
    ensures { IsTrue result → Within (2 ^ 80) price }
{
    -(1 << 80) <= price && price <= 1 << 80
}

/// Returns whether the prices of the cells, with the denominator 1, are in range.
fn are_in_range(day: &Instance, cell: &[i128]) -> bool
    ensures { IsTrue result → FitPrices day.now 1 cell.now [] [] }
{
    cell.len() == day.cells.len() && cell.iter().all(|price| is_price(*price))
}

/// Whether these prices of the cells have this least sum.
fn is_least(
    day: &Instance,
    graph: &Graph,
    prices: &mut PriceRoom,
    pricer: &mut Pricer,
    cell: &[i128],
    least: i128,
) -> bool
    requires sound { IsSoundInstance day.now }
    requires graph { HasGrammar graph.now }
    requires prices { IsRoomFor prices.old day.now }
    requires pricer { IsMadeFor graph.now pricer.old }
    ensures prices { IsRoomFor prices.new day.now }
    ensures pricer { IsMadeFor graph.now pricer.new }
{
    if !are_in_range(day, cell) {
        return false;
    }
    prices.set_parts(day, 1, cell, &[], &[]);
    pricer.cheapest(graph, &*prices) == Some(least)
}

const GREAT: i128 = 1 << 80;

const EDGE: i128 = 1 << 43;

/// Prices of the cells, and their least sums, in numbers of both widths.
const LEAST: [([i128; 4], i128); 4] = [
    ([1, 2, 2, 1], 0),
    ([-GREAT; 4], 2417851639229258349412356),
    ([EDGE; 4], -26388279066619),
    ([EDGE + 1; 4], -26388279066622),
];

fn are_least(day: &Instance, graph: &Graph, prices: &mut PriceRoom, pricer: &mut Pricer) -> bool
    requires sound { IsSoundInstance day.now }
    requires graph { HasGrammar graph.now }
    requires prices { IsRoomFor prices.old day.now }
    requires pricer { IsMadeFor graph.now pricer.old }
{
    for (cell, least) in &LEAST {
        if !is_least(day, graph, prices, pricer, cell, *least) {
            return false;
        }
    }
    true
}

/// Whether prices of the cells have their least sums on the graph.
fn has_least_sums(alloc: Global, day: &Instance, graph: &Graph) -> Result<bool, Fail>
    requires sound { IsSoundInstance day.now }
    requires graph { HasGrammar graph.now }
{
    let mut prices = PriceRoom::for_cuts(alloc, day, 0)?;
    let mut pricer = Pricer::new(alloc, graph)?;
    let are_least = are_least(day, graph, &mut prices, &mut pricer);
    drop(pricer);
    drop(prices);
    Ok(are_least)
}

fn has_sums(alloc: Global, day: &Instance) -> Result<bool, Fail>
    requires { IsSoundInstance day.now }
{
    let graph = sound_graph(alloc, &day.grammar)?;
    let has_sums = has_least_sums(alloc, day, &graph);
    drop(graph);
    has_sums
}

#[test]
fn least_sums(rt: HostRuntime) -> Result<(), Fail> {
    let day = sound_day(rt.alloc(), &BLOCK_PARTS)?;
    let has_sums = has_sums(rt.alloc(), &day);
    drop(day);
    assert!(rt; has_sums?);
    Ok(())
}
