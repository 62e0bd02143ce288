//! Days whose head counts or a cell alone show that there is no roster.

ghost use Rattle.std.specs.Prelude.{IfOk};
ghost use Rattle.model_rosters.specs.SoundInstance.{IsSoundInstance};
ghost use Rattle.law_bounds.specs.Infeasible.{IsPlainlyInfeasible};
ghost use Rattle.check_parts.specs.priced_part.Filled.{TellsDerived};
ghost use Rattle.lp_master_rows.specs.search_day.Days.{IsDay};
ghost use Rattle.search_branch_price.specs.Found.{IsFoundAtRoot};
ghost use Rattle.search_branch_price.specs.Infeasible.{ArePlain, HoldsPlain, IsPlainLeast, IsInfeasibleNode};

use crate::found::Found;
use check_certificates::{Cert, Node};
use check_parts::derived_names;
use lp_master_rows::Day;
use model_rosters::{Done, Instance, List, MOST_NAMES, Memory, PriceRoom, Prices};
use std::alloc::Global;
use tree_span_table::Table;

/// Returns prices of 0 at the denominator 1.
fn plain_prices(alloc: Global, instance: &Instance) -> Result<Prices, Memory>
    ensures { IfOk result (ArePlain instance.now) }
{
    let mut cell = List::new(alloc);
    for _ in 0..instance.cells.len() {
        cell.push(0)?;
    }
    Ok(Prices {
        d: 1,
        cell,
        mult: List::new(alloc),
    })
}

/// Returns room that holds plain costs.
fn plain_room(alloc: Global, instance: &Instance) -> Result<PriceRoom, Memory>
    requires { IsSoundInstance instance.now }
    ensures { IfOk result (HoldsPlain instance.now) }
{
    let prices = plain_prices(alloc, instance)?;
    let Ok(mut room) = PriceRoom::for_cuts(alloc, instance, 0) else {
        drop(prices);
        return Err(Memory);
    };
    room.set(instance, &prices, &[]);
    drop(prices);
    Ok(room)
}

/// Returns of each name of the grammar, in its order, whether it derives a word of the day.
///
/// # Errors
///
/// `Memory` where memory runs out; nothing is kept then.
pub(crate) fn derived(alloc: Global, instance: &Instance) -> Result<[bool; MOST_NAMES], Memory>
    requires { IsSoundInstance instance.now }
    ensures { IfOk result (TellsDerived instance.now.grammar) }
{
    let room = plain_room(alloc, instance)?;
    let Ok(mut table) = Table::for_instance(alloc, &instance.grammar) else {
        drop(room);
        return Err(Memory);
    };
    table.least(&instance.grammar, &room);
    drop(room);
    let derived = derived_names(&instance.grammar, &table);
    drop(table);
    Ok(derived)
}

/// Returns the least cost of a tree of the day; `None` exactly where it has none.
fn least_cost(alloc: Global, instance: &Instance) -> Result<Option<i128>, Memory>
    requires { IsSoundInstance instance.now }
    ensures { IfOk result (IsPlainLeast instance.now) }
{
    let room = plain_room(alloc, instance)?;
    let Ok(mut table) = Table::for_instance(alloc, &instance.grammar) else {
        drop(room);
        return Err(Memory);
    };
    let least = table.least(&instance.grammar, &room);
    drop(table);
    drop(room);
    Ok(least)
}

/// Returns the one node of a day that is plainly infeasible: one with prices of 0, or where the day has no
/// tree, and so no arc with more than one count, one that says so.
fn infeasible_node(alloc: Global, day: &Day) -> Result<Node, Memory>
    requires { IsDay day.now }
    ensures { IfOk result (IsInfeasibleNode day.now.instance.now) }
{
    if day.graph.arcs().is_empty() {
        return Ok(Node::Pinned);
    }
    match least_cost(alloc, day.instance)? {
        None => Ok(Node::Pinned),
        Some(_) => Ok(Node::Priced {
            prices: plain_prices(alloc, day.instance)?,
        }),
    }
}

/// Returns what a search finds where the head counts or a cell alone show that no roster is allowed.
///
/// # Errors
///
/// `Memory` where memory runs out; nothing is kept then.
pub(crate) fn no_roster(alloc: Global, day: &Day) -> Result<Found, Memory>
    requires day { IsDay day.now }
    requires infeasible { IsPlainlyInfeasible day.now.instance.now }
    ensures { IfOk result (IsFoundAtRoot day.now.instance.now) }
{
    let mut nodes = List::new(alloc);
    nodes.push(infeasible_node(alloc, day)?)?;
    Ok(Found {
        cert: Cert {
            shifts: List::new(alloc),
            cost: None,
            bound: None,
            nodes,
        },
        done: Done::NoRoster,
        processed: 1,
        failed: 0,
    })
}
