//! Nodes numbered, what each arc makes and uses.

ghost use Rattle.std.specs.Prelude.{◌≡◌, ◌≤◌, ◌<◌, ◌+◌, ◌++◌, ◌∷◌, [], Some, All, length, map, slice_get, IfOk, OnOk, List as Items};
ghost use Rattle.model_rosters.specs.declared.grammar.ArcKey.{ArcKey as Arc};
ghost use Rattle.model_rosters.specs.Sound.{IsSound};
ghost use Rattle.model_rosters.specs.arc_laws.OrNodes.{made, used, symbol_node, root_of};
ghost use Rattle.tree_graph.specs.Graphs.{HasArcs, IsKid, AreKids};
ghost use Rattle.tree_graph.specs.Nodes.{or_node};
ghost use Rattle.tree_span_arcs.specs.Shapes.{IsShaped};
ghost use Rattle.tree_graph.specs.Linked.{IsListed, UsesListed, AddsNode, uses_of, IsLinked, IsPlaceOf};

use crate::guesses::Guesses;
use crate::kid::Kid;
use crate::node::NodeKey;
use crate::room::with_room;
use crate::rows::Entry;
use indexmap::IndexSet;
use model_rosters::{ArcKey, Grammar, List, Memory, Sym, rule_of};
use std::alloc::Global;

/// What each of some arcs makes and uses.
#[derive(Drop)]
pub struct ArcLinks {
    /// For each arc the node that it makes.
    pub made_by: List<u32>,
    /// For each arc its first part.
    pub first: List<Kid>,
    /// For each arc what follows its first part.
    pub rest: List<Kid>,
}

/// The arcs that make nodes and use them.
#[derive(Drop)]
pub struct Entries {
    /// For each arc the node that it makes and the arc.
    pub makers: List<Entry>,
    /// For each use of a node the node and the arc that uses it.
    pub users: List<Entry>,
}

/// The nodes that some arcs make, and what each of these arcs makes and uses.
#[derive(Drop)]
pub struct Links {
    /// The nodes by their numbers.
    pub nodes: IndexSet<NodeKey>,
    pub arcs: ArcLinks,
    pub entries: Entries,
}

// The node that an arc makes.
fn made_key(grammar: &Grammar, arc: &ArcKey) -> NodeKey
    requires { IsShaped grammar.now arc.now }
    ensures { or_node result ≡ made grammar.now arc.now }
{
    if arc.suffix == 0 {
        NodeKey::Name {
            name: rule_of(grammar, arc.rule).left,
            start: arc.start,
            len: arc.len,
        }
    } else {
        NodeKey::Suffix {
            rule: arc.rule,
            from: arc.suffix,
            start: arc.start,
            len: arc.len,
        }
    }
}

// The kid of a node that has a number, which is looked for in the set.
#[cold]
fn sought_kid(nodes: &IndexSet<NodeKey>, key: NodeKey) -> Kid
    requires few { length nodes.now.keys ≤ 100000 }
    requires listed { IsListed (map or_node nodes.now.keys) (or_node key) }
    ensures { IsKid (map or_node nodes.now.keys) (or_node key) result }
{
    let Some(number) = nodes.get_index_of(&key) else {
        unreachable!();
    };
    Kid::Node(number as u32)
}

// The kid of a node that has a number.
#[inline(always)]
fn node_kid(nodes: &IndexSet<NodeKey>, guesses: &Guesses, key: NodeKey) -> Kid
    requires few { length nodes.now.keys ≤ 100000 }
    requires listed { IsListed (map or_node nodes.now.keys) (or_node key) }
    ensures { IsKid (map or_node nodes.now.keys) (or_node key) result }
{
    match guesses.number(nodes, &key) {
        Some(number) => Kid::Node(number),
        None => sought_kid(nodes, key),
    }
}

// The kid of a symbol on a span, that of a code at the span's first period.
#[inline(always)]
fn symbol_kid(nodes: &IndexSet<NodeKey>, guesses: &Guesses, symbol: Sym, start: u8, len: u8) -> Kid
    requires few { length nodes.now.keys ≤ 100000 }
    requires listed { IsListed (map or_node nodes.now.keys) (symbol_node symbol start len) }
    ensures { IsKid (map or_node nodes.now.keys) (symbol_node symbol start len) result }
{
    match symbol {
        Sym::Code(code) => Kid::Letter {
            code,
            period: start,
        },
        Sym::Name(name) => node_kid(nodes, guesses, NodeKey::Name { name, start, len }),
    }
}

// The kids of an arc.
fn kids_of(
    grammar: &Grammar,
    nodes: &IndexSet<NodeKey>,
    guesses: &Guesses,
    arc: &ArcKey,
) -> (Kid, Kid)
    requires sound { IsSound grammar.now }
    requires shaped { IsShaped grammar.now arc.now }
    requires few { length nodes.now.keys ≤ 100000 }
    requires uses { UsesListed grammar.now (map or_node nodes.now.keys) arc.now }
    ensures { AreKids (map or_node nodes.now.keys) (used grammar.now arc.now) result }
{
    let right = rule_of(grammar, arc.rule).right.as_slice();
    let from = arc.suffix as usize;
    let first = symbol_kid(nodes, guesses, right[from], arc.start, arc.part);
    if from + 1 == right.len() {
        return (first, Kid::Nothing);
    }
    let start = arc.start + arc.part;
    let len = arc.len - arc.part;
    if from + 2 == right.len() {
        let last = symbol_kid(nodes, guesses, right[from + 1], start, len);
        return (first, last);
    }
    let key = NodeKey::Suffix {
        rule: arc.rule,
        from: arc.suffix + 1,
        start,
        len,
    };
    let rest = node_kid(nodes, guesses, key);
    (first, rest)
}

// Numbers a node, if it has no number yet.
fn number_of(
    nodes: &mut IndexSet<NodeKey>,
    guesses: &mut Guesses,
    key: NodeKey,
) -> Result<u32, Memory>
    requires { length nodes.old.keys ≤ 100000 }
    ensures { IfOk result (AddsNode (map or_node nodes.old.keys) (or_node key) (map or_node nodes.new.keys)) }
{
    if let Some(number) = guesses.number(nodes, &key) {
        return Ok(number);
    }
    let (number, _) = nodes.insert_full(key)?;
    guesses.keep(&key, number as u32);
    Ok(number as u32)
}

// Adds a use of a kid that is a node.
fn add_use(users: &mut List<Entry>, kid: Kid, arc: u32) -> Result<(), Memory>
    ensures { OnOk result (users.new ≡ users.old ++ uses_of kid arc) }
{
    match kid {
        Kid::Node(row) => users.push(Entry { row, item: arc }),
        Kid::Nothing | Kid::Letter { .. } => Ok(()),
    }
}

impl ArcLinks {
    // No arcs, with room for so many.
    fn new(alloc: Global, arcs: usize) -> Result<ArcLinks, Memory>
        ensures { IfOk result (λ links. links ≡ record { made_by = []; first = []; rest = [] }) }
    {
        let made_by = with_room(alloc, arcs)?;
        let first = with_room(alloc, arcs)?;
        let rest = with_room(alloc, arcs)?;
        Ok(ArcLinks {
            made_by,
            first,
            rest,
        })
    }

    // Adds an arc's node and its kids.
    fn push(&mut self, made: u32, kids: (Kid, Kid)) -> Result<(), Memory>
        ensures { OnOk result (self.new ≡ record {
          made_by = self.old.made_by ++ made ∷ [];
          first = self.old.first ++ kids.0 ∷ [];
          rest = self.old.rest ++ kids.1 ∷ [];
        }) }
    {
        self.made_by.push(made)?;
        self.first.push(kids.0)?;
        self.rest.push(kids.1)
    }
}

impl Entries {
    // No arcs, with room for so many.
    fn new(alloc: Global, arcs: usize) -> Result<Entries, Memory>
        requires { arcs ≤ 100000 }
        ensures { IfOk result (λ entries. entries ≡ record { makers = []; users = [] }) }
    {
        let makers = with_room(alloc, arcs)?;
        let users = with_room(alloc, 2 * arcs)?;
        Ok(Entries { makers, users })
    }

    // Adds an arc to the makers of its node and to the users of its kids.
    fn push(&mut self, arc: u32, made: u32, kids: (Kid, Kid)) -> Result<(), Memory>
        ensures { OnOk result (self.new ≡ record {
          makers = self.old.makers ++ record { row = made; item = arc } ∷ [];
          users = (self.old.users ++ uses_of kids.0 arc) ++ uses_of kids.1 arc;
        }) }
    {
        self.makers.push(Entry {
            row: made,
            item: arc,
        })?;
        add_use(&mut self.users, kids.0, arc)?;
        add_use(&mut self.users, kids.1, arc)
    }
}

impl Links {
    // No arcs and no nodes, with room for so many arcs.
    fn new(alloc: Global, arcs: usize) -> Result<Links, Memory>
        requires { arcs ≤ 100000 }
        ensures nodes { IfOk result (λ links. links.nodes.keys ≡ []) }
        ensures arcs { IfOk result (λ links. links.arcs ≡ record { made_by = []; first = []; rest = [] }) }
        ensures entries { IfOk result (λ links. links.entries ≡ record { makers = []; users = [] }) }
    {
        let links = ArcLinks::new(alloc, arcs)?;
        let entries = Entries::new(alloc, arcs)?;
        Ok(Links {
            nodes: IndexSet::new(alloc),
            arcs: links,
            entries,
        })
    }

    // Adds an arc, after all those that make what it uses.
    fn add(&mut self, grammar: &Grammar, guesses: &mut Guesses, arc: &ArcKey) -> Result<(), Memory>
        requires sound { IsSound grammar.now }
        requires shaped { IsShaped grammar.now arc.now }
        requires uses { UsesListed grammar.now (map or_node self.old.nodes.keys) arc.now }
        requires few { length self.old.nodes.keys < 100000 }
        requires numbers { length self.old.arcs.made_by < 100000 }
        ensures { OnOk result ((arcs : Items Arc) → IsLinked grammar.now arcs self.old
            → IsLinked grammar.now (arcs ++ arc.now ∷ []) self.new) }
    {
        let number = self.arcs.made_by.len() as u32;
        let kids = kids_of(grammar, &self.nodes, guesses, arc);
        let made = number_of(&mut self.nodes, guesses, made_key(grammar, arc))?;
        self.arcs.push(made, kids)?;
        self.entries.push(number, made, kids)?;
        Ok(())
    }

    // Adds the arcs of the instance to no arcs.
    fn add_all(&mut self, alloc: Global, grammar: &Grammar, arcs: &[ArcKey]) -> Result<(), Memory>
        requires sound { IsSound grammar.now }
        requires arcs { HasArcs grammar.now arcs.now }
        requires shaped { All (IsShaped grammar.now) arcs.now }
        requires few { length arcs.now ≤ 100000 }
        requires none { IsLinked grammar.now [] self.old }
        ensures { OnOk result (IsLinked grammar.now arcs.now self.new) }
    {
        let mut guesses = Guesses::new(alloc, arcs.len())?;
        for arc in arcs {
            self.add(grammar, &mut guesses, arc)?;
        }
        Ok(())
    }
}

/// Links the arcs of the instance, which stand in an order in which each is after all those that make
/// what it uses.
///
/// # Errors
///
/// `Memory` where memory runs out; nothing is kept then.
pub fn link(alloc: Global, grammar: &Grammar, arcs: &[ArcKey]) -> Result<Links, Memory>
    requires sound { IsSound grammar.now }
    requires arcs { HasArcs grammar.now arcs.now }
    requires shaped { All (IsShaped grammar.now) arcs.now }
    requires few { length arcs.now ≤ 100000 }
    ensures { IfOk result (IsLinked grammar.now arcs.now) }
{
    let mut links = Links::new(alloc, arcs.len())?;
    match links.add_all(alloc, grammar, arcs) {
        Ok(()) => Ok(links),
        Err(fault) => Err(fault),
    }
}

/// Returns the nodes in the order of their numbers.
///
/// # Errors
///
/// `Memory` where memory runs out; nothing is kept then.
pub fn nodes_of(alloc: Global, nodes: &IndexSet<NodeKey>) -> Result<List<NodeKey>, Memory>
    ensures { IfOk result (λ list. list ≡ nodes.now.keys) }
{
    let mut list = List::new(alloc);
    for number in 0..nodes.len() {
        let Some(key) = nodes.get_index(number) else {
            unreachable!();
        };
        list.push(*key)?;
    }
    Ok(list)
}

/// Returns the number of the start name on the whole day, if it is a node.
pub fn root_of(grammar: &Grammar, nodes: &IndexSet<NodeKey>) -> Option<u32>
    requires { length nodes.now.keys ≤ 100000 }
    ensures { IsPlaceOf (map or_node nodes.now.keys) (root_of grammar.now) result }
{
    let key = NodeKey::Name {
        name: grammar.start,
        start: 1,
        len: grammar.periods,
    };
    match nodes.get_index_of(&key) {
        Some(number) => Some(number as u32),
        None => None,
    }
}
