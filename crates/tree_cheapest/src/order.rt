//! The nodes, each after those that its arcs use, with the arcs that make a node side by side.

ghost use Rattle.std.specs.Prelude.{ℕ, ◌≡◌, ◌≢◌, ◌≤◌, ◌<◌, ◌+◌, ◌-◌, ◌^◌, [], List as Items, Some, length, slice_get, slice_index, IsTrue, IsFalse, IfOk, OnOk};
ghost use Rattle.tree_graph.specs.Graphs.{HasGrammar};
ghost use Rattle.tree_cheapest.specs.declared.slots.Spot.{Spot};
ghost use Rattle.tree_cheapest.specs.Orders.{code_of, IsLinked, AreAdded, IsOrderBefore, IsOrder};
ghost use Rattle.tree_cheapest.specs.Links.{AreLinks};

use crate::slots::Links;
use model_rosters::{ArcKey, List, Memory};
use std::alloc::Global;
use tree_graph::Graph;

/// An arc that makes a node, and the slots of what is below it.
#[derive(Clone, Copy, Drop)]
pub struct Maker {
    /// The place of the arc in the graph.
    pub arc: u32,
    /// The slot of its first part.
    pub first: u32,
    /// The slot of what follows its first part.
    pub rest: u32,
    /// The number of its rule plus 1 where it is of a whole right side, and else 0.
    pub code: u16,
}

/// A node, and where the arcs that make it stand among all.
#[derive(Clone, Copy, Drop)]
pub struct Row {
    pub node: u32,
    pub begin: usize,
    pub end: usize,
}

/// The nodes of a graph, each after those that its arcs use, and the arcs that make a node side by
/// side.
#[derive(Drop)]
pub struct Order {
    pub rows: List<Row>,
    pub makers: List<Maker>,
}

// Returns 1 plus the number of an arc's rule where it is of a whole right side, and else 0.
fn code_of(key: &ArcKey) -> u16
    ensures code { result ≡ code_of key.now.rule key.now.suffix }
    ensures fits { result ≤ 256 }
{
    if key.suffix == 0 {
        u16::from(key.rule) + 1
    } else {
        0
    }
}

// Returns an arc with its slots.
fn maker_of(graph: &Graph, links: &Links, arc: u32) -> Maker
    requires arc { arc < length graph.now.arcs }
    requires first { length links.now.first ≡ length graph.now.arcs }
    requires rest { length links.now.rest ≡ length graph.now.arcs }
    ensures { IsLinked graph.now links.now arc result }
{
    let place = arc as usize;
    Maker {
        arc,
        first: links.first.as_slice()[place],
        rest: links.rest.as_slice()[place],
        code: code_of(&graph.arcs()[place]),
    }
}

// Adds arcs with their slots.
fn add_makers(
    graph: &Graph,
    links: &Links,
    arcs: &[u32],
    makers: &mut List<Maker>,
) -> Result<(), Memory>
    requires arcs { (i q : ℕ) → slice_get arcs.now i ≡ Some q → q < length graph.now.arcs }
    requires first { length links.now.first ≡ length graph.now.arcs }
    requires rest { length links.now.rest ≡ length graph.now.arcs }
    ensures { OnOk result (AreAdded graph.now links.now arcs.now makers.old makers.new (length arcs.now)) }
{
    for index in 0..arcs.len() {
        makers.push(maker_of(graph, links, arcs[index]))?;
    }
    Ok(())
}

// Says whether an arc is the last one.
fn is_last(arcs: &[u32], arc: u32) -> bool
    requires { 0 < length arcs.now }
    ensures last { IsTrue result → slice_index arcs.now (length arcs.now - 1) ≡ arc }
    ensures other { IsFalse result → slice_index arcs.now (length arcs.now - 1) ≢ arc }
{
    arcs[arcs.len() - 1] == arc
}

// Adds the row of a node, the last of whose arcs is at the place.
fn add_row(graph: &Graph, links: &Links, node: u32, order: &mut Order) -> Result<(), Memory>
    requires graph { HasGrammar graph.now }
    requires node { node < length graph.now.nodes }
    requires first { length links.now.first ≡ length graph.now.arcs }
    requires rest { length links.now.rest ≡ length graph.now.arcs }
    ensures { OnOk result ((letters : Items Spot) (place : ℕ)
        → AreLinks graph.now letters links.now (length graph.now.arcs)
        → slice_get graph.now.made_by place ≡ Some node
        → ((q : ℕ) → q < length graph.now.arcs → slice_get graph.now.made_by q ≡ Some node → q ≤ place)
        → IsOrderBefore graph.now letters place order.old → IsOrderBefore graph.now letters (place + 1) order.new) }
{
    let begin = order.makers.len();
    let arcs = graph.makers(node);
    add_makers(graph, links, arcs, &mut order.makers)?;
    let end = order.makers.len();
    order.rows.push(Row { node, begin, end })?;
    Ok(())
}

// Adds the row of the node that an arc makes where the arc is the last that makes it.
fn add_last(graph: &Graph, links: &Links, place: usize, order: &mut Order) -> Result<(), Memory>
    requires graph { HasGrammar graph.now }
    requires place { place < length graph.now.arcs }
    requires few { place < 2 ^ 32 }
    requires first { length links.now.first ≡ length graph.now.arcs }
    requires rest { length links.now.rest ≡ length graph.now.arcs }
    ensures { OnOk result ((letters : Items Spot)
        → AreLinks graph.now letters links.now (length graph.now.arcs)
        → IsOrderBefore graph.now letters place order.old → IsOrderBefore graph.now letters (place + 1) order.new) }
{
    let arc = place as u32;
    let node = graph.made_by(arc);
    let arcs = graph.makers(node);
    if !is_last(arcs, arc) {
        return Ok(());
    }
    add_row(graph, links, node, order)?;
    Ok(())
}

// An order with no rows, which has taken the memory for so many rows and arcs.
fn with_capacity(alloc: Global, rows: usize, makers: usize) -> Result<Order, Memory>
    ensures { IfOk result (λ o. o ≡ record { rows = []; makers = [] }) }
{
    let rows = Vec::with_capacity(alloc, rows)?;
    let makers = Vec::with_capacity(alloc, makers)?;
    Ok(Order {
        rows: List::from_vec(rows),
        makers: List::from_vec(makers),
    })
}

/// Returns an order of the nodes of a graph, each after those that its arcs use: each node stands where the
/// last arc is reached that makes it, since an arc stands after all that make what it uses.
///
/// # Errors
///
/// `Memory` where memory runs out; nothing is kept then.
pub fn find_order(alloc: Global, graph: &Graph, links: &Links) -> Result<Order, Memory>
    requires first { length links.now.first ≡ length graph.now.arcs }
    requires rest { length links.now.rest ≡ length graph.now.arcs }
    ensures { IfOk result (λ o. (letters : Items Spot)
        → AreLinks graph.now letters links.now (length graph.now.arcs)
        → IsOrder graph.now letters o) }
{
    let mut order = with_capacity(alloc, graph.nodes() as usize, graph.arcs().len())?;
    for place in 0..graph.arcs().len() {
        add_last(graph, links, place, &mut order)?;
    }
    Ok(order)
}
