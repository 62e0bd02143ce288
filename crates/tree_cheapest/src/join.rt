//! The slots of nodes and letters, joined by the arcs.

ghost use Rattle.std.specs.Prelude.{◌≡◌, ◌≤◌, ◌<◌, ◌*◌, ◌+◌, IfOk, OnOk, length};
ghost use Rattle.tree_cheapest.specs.Links.{AreLinks};

use crate::letters::Letters;
use crate::slots::{Links, Spot};
use model_rosters::{List, Memory};
use std::alloc::Global;
use tree_graph::Graph;

/// The slots that the arcs of a graph join, and the letters that have slots.
#[derive(Drop)]
pub struct Joined {
    pub links: Links,
    /// The letters in the order of their slots.
    pub letters: List<Spot>,
}

// Adds the slots of the next arc.
fn add(graph: &Graph, arc: u32, letters: &mut Letters, links: &mut Links) -> Result<(), Memory>
    requires arc { arc < length graph.now.arcs }
    requires below { arc < 100000 }
    requires few { length letters.old.list ≤ 2 * arc }
    requires links { AreLinks graph.now letters.old.list links.old arc }
    ensures few { OnOk result (length letters.new.list ≤ 2 * (arc + 1)) }
    ensures links { OnOk result (AreLinks graph.now letters.new.list links.new (arc + 1)) }
{
    let nodes = graph.nodes();
    let (first, rest) = graph.children(arc);
    let first_slot = letters.slot(first, nodes)?;
    let rest_slot = letters.slot(rest, nodes)?;
    links.push(graph.made_by(arc), first_slot, rest_slot)?;
    Ok(())
}

// Returns the slots of all arcs.
fn links_of(alloc: Global, graph: &Graph, letters: &mut Letters) -> Result<Links, Memory>
    requires { length letters.old.list ≡ 0 }
    ensures { IfOk result (λ links. AreLinks graph.now letters.new.list links (length graph.now.arcs)) }
{
    let arcs = graph.arcs().len();
    let mut links = Links::with_capacity(alloc, arcs)?;
    for arc in 0..arcs {
        add(graph, arc as u32, letters, &mut links)?;
    }
    Ok(links)
}

/// Gives slots to the letters of a graph, and joins by its arcs these slots and those of the nodes.
///
/// # Errors
///
/// `Memory` where memory runs out; nothing is kept then.
pub fn join(alloc: Global, graph: &Graph) -> Result<Joined, Memory>
    ensures { IfOk result (λ j. AreLinks graph.now j.letters j.links (length graph.now.arcs)) }
{
    let mut letters = Letters::new(alloc)?;
    let links = links_of(alloc, graph, &mut letters)?;
    Ok(Joined {
        links,
        letters: letters.into_list(),
    })
}
