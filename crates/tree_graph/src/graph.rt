//! The graph, and its calls.

ghost use Rattle.std.specs.Prelude.{◌≡◌, ◌≤◌, ◌<◌, Some, IfOk, IfErr, IfSome, IfNone, length, slice_get};
ghost use Rattle.model_rosters.specs.Sound.{IsSound};
ghost use Rattle.model_rosters.specs.Folds.{In};
ghost use Rattle.tree_pool.specs.grammar_core.Items.{IsNormal, IsOrder};
ghost use Rattle.tree_graph.specs.Graphs.{HasGrammar, IsGraph, IsRefused};
ghost use Rattle.tree_graph.specs.Levels.{IsUpward};
ghost use Rattle.tree_graph.specs.Listed.{AreListed};

use crate::fault::GraphFault;
use crate::joints::{NodeLists, join};
use crate::kid::Kid;
use crate::level::{Upward, sort_upward};
use crate::links::ArcLinks;
use crate::search::search;
use crate::walk::list_arcs;
use model_rosters::{ArcKey, Grammar, List};
use std::alloc::Global;
use std::marker::Model;
use tree_pool::Normal;
use tree_span_arcs::DayArcs;

/// The shared graph of all parses of an instance. An arc is a suffix of a rule on a span with the
/// length of its first part; it makes the rule's name on the span, or the suffix where that is not
/// the whole right side, and uses its first part and what follows it. Arcs and nodes are numbered
/// from 0.
#[derive(Drop)]
pub struct Graph {
    arcs: Upward,
    links: ArcLinks,
    nodes: NodeLists,
    root: Option<u32>,
}

impl Model for Graph {
    ghost use Rattle.std.specs.Prelude.{◌≤◌, length};
    ghost use Rattle.tree_graph.specs.Graphs.{GraphView, HasGrammar};
    ghost use Rattle.tree_graph.specs.Levels.{AreInOrder};
    ghost use Rattle.tree_graph.specs.Joined.{view_of, HaveLengths};

    ghost Value = { GraphView };

    ghost view = { λ s. view_of s.arcs.arcs (record { links = s.links; nodes = s.nodes; root = s.root }) };

    ghost invariant = { λ s. AreInOrder s.arcs.arcs s.arcs.places × (length s.arcs.arcs ≤ 100000)
        × HaveLengths s.arcs.arcs (record { links = s.links; nodes = s.nodes; root = s.root })
        × HasGrammar (view_of s.arcs.arcs (record { links = s.links; nodes = s.nodes; root = s.root })) };
}

// The arcs of the instance in their order, where they are few. What tells them is given back.
fn listed(alloc: Global, grammar: &Grammar) -> Result<List<ArcKey>, GraphFault>
    requires { IsSound grammar.now }
    ensures listed { IfOk result (AreListed grammar.now) }
    ensures refused { IfErr result (IsRefused grammar.now) }
{
    let day = DayArcs::for_instance(alloc, grammar)?;
    list_arcs(alloc, grammar, &day)
}

// The arcs of the instance, each after all arcs that make what it uses, where they are few.
fn sorted(alloc: Global, grammar: &Grammar, order: &[u8]) -> Result<Upward, GraphFault>
    requires sound { IsSound grammar.now }
    requires order { IsOrder grammar.now order.now }
    ensures upward { IfOk result (IsUpward grammar.now) }
    ensures refused { IfErr result (IsRefused grammar.now) }
{
    let listed = listed(alloc, grammar)?;
    Ok(sort_upward(alloc, grammar, order, listed.as_slice())?)
}

impl Graph {
    /// Returns the graph of a sound grammar's day, whose normal form is given.
    ///
    /// # Errors
    ///
    /// `TooManyArcs` exactly where the instance has more than 100,000 arcs, with their number, and
    /// `Memory` where memory runs out.
    pub fn build(alloc: Global, grammar: &Grammar, normal: &Normal) -> Result<Graph, GraphFault>
        requires sound { IsSound grammar.now }
        requires normal { IsNormal grammar.now normal.now }
        ensures graph { IfOk result (IsGraph grammar.now) }
        ensures refused { IfErr result (IsRefused grammar.now) }
    {
        let arcs = sorted(alloc, grammar, normal.order.as_slice())?;
        let joints = join(alloc, grammar, arcs.arcs.as_slice())?;
        Ok(Graph {
            arcs,
            links: joints.links,
            nodes: joints.nodes,
            root: joints.root,
        })
    }

    /// Returns all arcs of the instance, each once; an arc stands after all arcs that make what it
    /// uses.
    pub fn arcs(&self) -> &[ArcKey]
        ensures arcs { result.now ≡ self.now.arcs }
        ensures few { length result.now ≤ 100000 }
    {
        self.arcs.arcs.as_slice()
    }

    /// Returns how many nodes there are. The graph is that of a sound grammar, as each graph is.
    pub fn nodes(&self) -> u32
        ensures nodes { result ≡ length self.now.nodes }
        ensures few { result ≤ 100000 }
        ensures grammar { HasGrammar self.now }
    {
        self.nodes.keys.len() as u32
    }

    /// Returns the node of the start name on the whole day; `None` exactly where the day has no
    /// tree.
    pub fn root(&self) -> Option<u32>
        ensures { result ≡ self.now.root }
    {
        self.root
    }

    /// Returns the arcs that make a node, by rising numbers.
    pub fn makers(&self, node: u32) -> &[u32]
        requires { node < length self.now.nodes }
        ensures { slice_get self.now.makers node ≡ Some result.now }
    {
        self.nodes.makers.row(node)
    }

    /// Returns the arcs that use a node, by rising numbers.
    pub fn users(&self, node: u32) -> &[u32]
        requires { node < length self.now.nodes }
        ensures { slice_get self.now.users node ≡ Some result.now }
    {
        self.nodes.users.row(node)
    }

    /// Returns the node that an arc makes.
    pub fn made_by(&self, arc: u32) -> u32
        requires { arc < length self.now.arcs }
        ensures { slice_get self.now.made_by arc ≡ Some result }
    {
        self.links.made_by.as_slice()[arc as usize]
    }

    /// Returns what is below an arc: its first part, and what follows that part.
    pub fn children(&self, arc: u32) -> (Kid, Kid)
        requires { arc < length self.now.arcs }
        ensures first { slice_get self.now.first arc ≡ Some result.0 }
        ensures rest { slice_get self.now.rest arc ≡ Some result.1 }
    {
        let first = self.links.first.as_slice()[arc as usize];
        let rest = self.links.rest.as_slice()[arc as usize];
        (first, rest)
    }

    /// Returns the number of an arc; `None` exactly where it is no arc of the instance.
    pub fn find(&self, arc: &ArcKey) -> Option<u32>
        ensures found { IfSome result (λ p. slice_get self.now.arcs p ≡ Some arc.now) }
        ensures none { IfNone result (In arc.now self.now.arcs → ⊥) }
    {
        search(self.arcs.arcs.as_slice(), self.arcs.places.as_slice(), arc)
    }
}
