//! Which pass fills the slots: one in 64 bits or one in 128.
//!
//! Which pass: in 64 bits where prices are within 2^43 and sums within 2^59, else in 128 bits; there the arcs
//! are asked for one by one where listed prices of one arc add up beyond 2^96 on the way, or more are listed
//! than there are arcs.

ghost use Rattle.std.specs.Prelude.{◌≡◌, ◌+◌, ◌^◌, IsTrue, Option, length};
ghost use Rattle.model_rosters.specs.declared.grammar.Grammar.{Grammar as Rules};
ghost use Rattle.model_rosters.specs.Sound.{IsSound};
ghost use Rattle.tree_graph.specs.Graphs.{HasGrammar, IsGraph};
ghost use Rattle.tree_cheapest.specs.declared.order.Order.{Order as Found};
ghost use Rattle.tree_cheapest.specs.declared.slots.Links.{Links as Joined};
ghost use Rattle.tree_cheapest.specs.Numbers.{AreSmall};
ghost use Rattle.tree_cheapest.specs.Orders.{IsOrder};
ghost use Rattle.tree_cheapest.specs.Passes.{AreRowsPassed};
ghost use Rattle.tree_cheapest.specs.Pricers.{IsFilled};
ghost use Rattle.tree_cheapest.specs.Rooms.{IsRoomFor};

use crate::least::Sum;
use crate::number::Number;
use crate::order::Order;
use crate::pass_workspace::PassWorkspace;
use crate::row_fill::{fill_asked, fill_rows};
use crate::slots::Spot;
use model_rosters::LetterPrice;
use tree_graph::Graph;
use tree_span_cells::PackedSum;

// Puts all sums into the cells.
fn copy<N: Number>(sums: &[Sum<N>], values: &mut [PackedSum])
    requires count { length sums.now ≡ length values.old }
    requires small { AreSmall N.limits.sum sums.now }
    ensures { values.new ≡ sums.now }
{
    for slot in 0..sums.len() {
        values[slot] = PackedSum::new(sums[slot].sum());
    }
}

// Passes all rows of an order in numbers of one width, puts the sums into the cells, and returns true;
// false where a price or a sum is beyond the limits of these numbers.
fn fill_cells<N: Number, P: LetterPrice>(
    graph: &Graph,
    prices: &P,
    letters: &[Spot],
    order: &Order,
    room: &mut PassWorkspace<N>,
    values: &mut [PackedSum],
    best: &mut [u32],
) -> bool
    requires graph { HasGrammar graph.now }
    requires order { IsOrder graph.now letters.now order.now }
    requires slots { length values.old ≡ length graph.now.nodes + 1 + length letters.now }
    requires nodes { length best.old ≡ length graph.now.nodes }
    requires room { IsRoomFor (length graph.now.arcs) (length values.old) room.old }
    ensures room { IsRoomFor (length graph.now.arcs) (length values.old) room.new }
    ensures passed { IsTrue result
        → AreRowsPassed N.limits.sum (P.view prices.now) graph.now letters.now order.now values.new best.new
        (length order.now.rows) }
{
    let rules = room.rules.as_mut_slice();
    let sums = room.sums.as_mut_slice();
    if !fill_rows(
        graph,
        prices,
        letters,
        order,
        rules,
        &mut room.extras,
        sums,
        best,
    ) {
        return false;
    }
    copy(room.sums.as_slice(), values);
    true
}

// Passes all rows of an order in numbers that fit all prices and sums, asking for the prices of the arcs
// one by one, and puts the sums into the cells.
fn fill_wide_cells<P: LetterPrice>(
    graph: &Graph,
    prices: &P,
    letters: &[Spot],
    order: &Order,
    room: &mut PassWorkspace<i128>,
    values: &mut [PackedSum],
    best: &mut [u32],
)
    requires graph { HasGrammar graph.now }
    requires order { IsOrder graph.now letters.now order.now }
    requires slots { length values.old ≡ length graph.now.nodes + 1 + length letters.now }
    requires nodes { length best.old ≡ length graph.now.nodes }
    requires room { IsRoomFor (length graph.now.arcs) (length values.old) room.old }
    ensures room { IsRoomFor (length graph.now.arcs) (length values.old) room.new }
    ensures passed { AreRowsPassed (2 ^ 110) (P.view prices.now) graph.now letters.now order.now values.new
        best.new (length order.now.rows) }
{
    let rules = room.rules.as_mut_slice();
    let sums = room.sums.as_mut_slice();
    if !fill_asked(
        graph,
        prices,
        letters,
        order,
        rules,
        &mut room.extras,
        sums,
        best,
    ) {
        unreachable!();
    }
    copy(room.sums.as_slice(), values);
}

/// Puts into the slot of each node of the graph the least sum of what stands there, or none, and keeps
/// an arc that has it at the top.
///
/// The sums are found row by row, in numbers of 64 bits where the prices are narrow, and else of 128 bits;
/// where the prices that are listed do not fit these on the way, the arcs are asked for one by one.
pub fn fill_slots<P: LetterPrice>(
    graph: &Graph,
    prices: &P,
    letters: &[Spot],
    order: &Order,
    narrow: &mut PassWorkspace<i64>,
    wide: &mut PassWorkspace<i128>,
    values: &mut [PackedSum],
    best: &mut [u32],
)
    requires graph { HasGrammar graph.now }
    requires order { IsOrder graph.now letters.now order.now }
    requires slots { length values.old ≡ length graph.now.nodes + 1 + length letters.now }
    requires nodes { length best.old ≡ length graph.now.nodes }
    requires narrow { IsRoomFor (length graph.now.arcs) (length values.old) narrow.old }
    requires wide { IsRoomFor (length graph.now.arcs) (length values.old) wide.old }
    ensures narrow { IsRoomFor (length graph.now.arcs) (length values.old) narrow.new }
    ensures wide { IsRoomFor (length graph.now.arcs) (length values.old) wide.new }
    ensures filled { (g : Rules) → IsSound g → IsGraph g graph.now → (links : Joined) (held : Option Found)
        → IsFilled g (P.view prices.now) graph.now (record {
          links = links;
          letters = letters.now;
          order = held;
          values = values.new;
          best = best.new;
        }) }
{
    if fill_cells(graph, prices, letters, order, narrow, values, best) {
        return;
    }
    if fill_cells(graph, prices, letters, order, wide, values, best) {
        return;
    }
    fill_wide_cells(graph, prices, letters, order, wide, values, best);
}
