//! What joins some arcs and their nodes.

ghost use Rattle.std.specs.Prelude.{◌≡◌, ◌≤◌, ◌<◌, ◌^◌, All, IfOk, length};
ghost use Rattle.model_rosters.specs.Sound.{IsSound};
ghost use Rattle.tree_graph.specs.Graphs.{HasArcs};
ghost use Rattle.tree_graph.specs.Joined.{AreJoints};
ghost use Rattle.tree_graph.specs.Lists.{AreRows};
ghost use Rattle.tree_span_arcs.specs.Shapes.{IsShaped};

use crate::links::{ArcLinks, Entries, Links, link, nodes_of, root_of};
use crate::node::NodeKey;
use crate::rows::Rows;
use model_rosters::{ArcKey, Grammar, List, Memory};
use std::alloc::Global;

/// The nodes by their numbers.
#[derive(Drop)]
pub struct NodeLists {
    pub keys: List<NodeKey>,
    /// The arcs that make each node.
    pub makers: Rows,
    /// The arcs that use each node.
    pub users: Rows,
}

/// What joins some arcs and their nodes.
#[derive(Drop)]
pub struct Joints {
    pub links: ArcLinks,
    pub nodes: NodeLists,
    /// The node of the start name on the whole day.
    pub root: Option<u32>,
}

// The arcs that make each node, and those that use each.
#[derive(Drop)]
struct NodeRows {
    makers: Rows,
    users: Rows,
}

// Puts the entries into rows, one for each of so many nodes.
fn rows_of(alloc: Global, nodes: usize, entries: &Entries) -> Result<NodeRows, Memory>
    requires makers { All (λ e. e.row < nodes) entries.now.makers }
    requires users { All (λ e. e.row < nodes) entries.now.users }
    requires few_makers { length entries.now.makers < 2 ^ 32 }
    requires few_users { length entries.now.users < 2 ^ 32 }
    ensures makers { IfOk result (λ r. AreRows nodes entries.now.makers r.makers) }
    ensures users { IfOk result (λ r. AreRows nodes entries.now.users r.users) }
{
    let makers = Rows::new(alloc, nodes, entries.makers.as_slice())?;
    let users = Rows::new(alloc, nodes, entries.users.as_slice())?;
    Ok(NodeRows { makers, users })
}

// The nodes of linked arcs by their numbers.
fn lists_of(alloc: Global, links: &Links) -> Result<NodeLists, Memory>
    requires makers { All (λ e. e.row < length links.now.nodes.keys) links.now.entries.makers }
    requires users { All (λ e. e.row < length links.now.nodes.keys) links.now.entries.users }
    requires few_makers { length links.now.entries.makers < 2 ^ 32 }
    requires few_users { length links.now.entries.users < 2 ^ 32 }
    ensures keys { IfOk result (λ n. n.keys ≡ links.now.nodes.keys) }
    ensures makers { IfOk result (λ n.
        AreRows (length links.now.nodes.keys) links.now.entries.makers n.makers) }
    ensures users { IfOk result (λ n.
        AreRows (length links.now.nodes.keys) links.now.entries.users n.users) }
{
    let keys = nodes_of(alloc, &links.nodes)?;
    let rows = rows_of(alloc, keys.len(), &links.entries)?;
    Ok(NodeLists {
        keys,
        makers: rows.makers,
        users: rows.users,
    })
}

// What joins linked arcs and their nodes.
fn joined(links: Links, nodes: NodeLists, root: Option<u32>) -> Joints
    ensures { result ≡ record { links = links.arcs; nodes = nodes; root = root } }
{
    Joints {
        links: links.arcs,
        nodes,
        root,
    }
}

/// Joins the arcs of the instance, which stand in an order in which each is after all those that make
/// what it uses.
///
/// # Errors
///
/// `Memory` where memory runs out; nothing is kept then.
pub fn join(alloc: Global, grammar: &Grammar, arcs: &[ArcKey]) -> Result<Joints, Memory>
    requires sound { IsSound grammar.now }
    requires arcs { HasArcs grammar.now arcs.now }
    requires shaped { All (IsShaped grammar.now) arcs.now }
    requires few { length arcs.now ≤ 100000 }
    ensures { IfOk result (AreJoints grammar.now arcs.now) }
{
    let links = link(alloc, grammar, arcs)?;
    match lists_of(alloc, &links) {
        Ok(nodes) => {
            let root = root_of(grammar, &links.nodes);
            Ok(joined(links, nodes, root))
        }
        Err(fault) => Err(fault),
    }
}
