//! The pricer, and all its calls.

ghost use Rattle.std.specs.Prelude.{◌≡◌, ◌+◌, ◌<◌, IfOk, length};
ghost use Rattle.model_rosters.specs.declared.grammar.Grammar.{Grammar as Rules};
ghost use Rattle.model_rosters.specs.Sound.{IsSound};
ghost use Rattle.model_rosters.specs.Trees.{IsDayTree};
ghost use Rattle.model_rosters.specs.Sums.{IsLeast, tree_sum};
ghost use Rattle.model_rosters.specs.tree_laws.LeastTrees.{HoldsLeastTree};
ghost use Rattle.tree_graph.specs.Graphs.{GraphView, HasGrammar, IsGraph};
ghost use Rattle.model_rosters.specs.declared.grammar.ArcKey.{ArcKey as Key};
ghost use Rattle.tree_cheapest.specs.Pricers.{IsMadeFor, IsFilled, AsksTree};
ghost use Rattle.tree_cheapest.specs.Rooms.{IsRoomFor};
ghost use Rattle.tree_cheapest.specs.Under.{IsTop, IsReady, IsDayTreeUnder, AsksTreeUnder, HoldsLeastUnder};

use crate::fill_slots::fill_slots;
use crate::join::join;
use crate::order::{Order, find_order};
use crate::pass_workspace::PassWorkspace;
use crate::slots::{Links, Spot};
use crate::under::least_under;
use crate::walk::{write_node, write_under};
use model_rosters::{LetterPrice, List, Memory, TreeRoom};
use std::alloc::Global;
use std::marker::Model;
use tree_graph::Graph;
use tree_span_cells::PackedSum;

/// The least sums of all trees of a graph's nodes.
#[derive(Drop)]
pub struct Pricer {
    // The slots that the arcs join.
    links: Links,
    // The letters that have slots.
    letters: List<Spot>,
    // An order of the nodes.
    order: Order,
    // The value in each slot: those of the nodes, of nothing, and of the letters.
    values: Vec<PackedSum>,
    // What a call works in whose prices are narrow, and one whose prices are wide.
    narrow: PassWorkspace<i64>,
    wide: PassWorkspace<i128>,
    // For each node that has a value an arc with a tree of that sum, by its place.
    best: Vec<u32>,
}

impl Model for Pricer {
    ghost use Rattle.std.specs.Prelude.{Some, length};
    ghost use Rattle.tree_cheapest.specs.Pricers.{PricerView};
    ghost use Rattle.tree_cheapest.specs.Rooms.{IsRoomFor};

    ghost Value = { PricerView };

    ghost view = { λ s. record {
      links = s.links;
      letters = s.letters;
      order = Some s.order;
      values = s.values.items;
      best = s.best.items;
    } };

    ghost invariant = { λ s. IsRoomFor (length s.links.made) (length s.values.items) s.narrow
        × IsRoomFor (length s.links.made) (length s.values.items) s.wide };
}

// Empty cells for the slots, and a best arc for each node.
#[derive(Drop)]
struct Values {
    cells: Vec<PackedSum>,
    best: Vec<u32>,
}

// Takes the memory for the values of so many nodes, of nothing and of the letters.
fn values_of(alloc: Global, nodes: u32, letters: &[Spot]) -> Result<Values, Memory>
    ensures cells { IfOk result (λ v. length v.cells.items ≡ nodes + 1 + length letters.now) }
    ensures best { IfOk result (λ v. length v.best.items ≡ nodes) }
{
    let count = nodes as usize + 1 + letters.len();
    let cells = vec![in alloc; PackedSum::new(None); count]?;
    let best = vec![in alloc; 0; nodes as usize]?;
    Ok(Values { cells, best })
}

// What calls work in.
#[derive(Drop)]
struct Rooms {
    narrow: PassWorkspace<i64>,
    wide: PassWorkspace<i128>,
}

// Takes the memory for passes over so many arcs and slots.
fn rooms_of(alloc: Global, arcs: usize, slots: usize) -> Result<Rooms, Memory>
    ensures narrow { IfOk result (λ r. IsRoomFor arcs slots r.narrow) }
    ensures wide { IfOk result (λ r. IsRoomFor arcs slots r.wide) }
{
    let narrow = PassWorkspace::new(alloc, arcs, slots)?;
    let wide = PassWorkspace::new(alloc, arcs, slots)?;
    Ok(Rooms { narrow, wide })
}

// What the calls of a pricer change.
#[derive(Drop)]
struct Work {
    values: Values,
    rooms: Rooms,
}

// Takes the memory for what the calls of a pricer change, where these letters have slots.
fn work_of(alloc: Global, graph: &Graph, letters: &[Spot]) -> Result<Work, Memory>
    ensures cells { IfOk result (λ w. length w.values.cells.items
        ≡ length graph.now.nodes + 1 + length letters.now) }
    ensures best { IfOk result (λ w. length w.values.best.items ≡ length graph.now.nodes) }
    ensures narrow { IfOk result (λ w. IsRoomFor (length graph.now.arcs) (length w.values.cells.items)
        w.rooms.narrow) }
    ensures wide { IfOk result (λ w. IsRoomFor (length graph.now.arcs) (length w.values.cells.items)
        w.rooms.wide) }
{
    let values = values_of(alloc, graph.nodes(), letters)?;
    let rooms = rooms_of(alloc, graph.arcs().len(), values.cells.len())?;
    Ok(Work { values, rooms })
}

impl Pricer {
    /// Returns a pricer for the trees of a graph. Later calls take the same graph.
    ///
    /// It has taken the memory for all of them: 60 bytes for each arc, 68 for each node, and
    /// 42 for each letter.
    ///
    /// # Errors
    ///
    /// `Memory` where memory runs out; nothing is kept then.
    pub fn new(alloc: Global, graph: &Graph) -> Result<Pricer, Memory>
        ensures { IfOk result (IsMadeFor graph.now) }
    {
        let joined = join(alloc, graph)?;
        let order = find_order(alloc, graph, &joined.links)?;
        let Work { values, rooms } = work_of(alloc, graph, joined.letters.as_slice())?;
        Ok(Pricer {
            links: joined.links,
            letters: joined.letters,
            order,
            values: values.cells,
            narrow: rooms.narrow,
            wide: rooms.wide,
            best: values.best,
        })
    }

    /// Fills the pricer for the prices, and returns the least sum over all trees of the day; `None`
    /// exactly where no such tree has a sum. Takes no memory.
    pub fn cheapest<P: LetterPrice>(&mut self, graph: &Graph, prices: &P) -> Option<i128>
        requires graph { HasGrammar graph.now }
        requires made { IsMadeFor graph.now self.old }
        ensures least { (g : Rules) → IsSound g → IsGraph g graph.now
            → IsLeast (IsDayTree g) (tree_sum (P.view prices.now) 1) result }
        ensures filled { (g : Rules) → IsSound g → IsGraph g graph.now
            → IsFilled g (P.view prices.now) graph.now self.new }
        ensures kept { (v : GraphView) → IsMadeFor v self.old → IsMadeFor v self.new }
    {
        fill_slots(
            graph,
            prices,
            self.letters.as_slice(),
            &self.order,
            &mut self.narrow,
            &mut self.wide,
            self.values.as_mut_slice(),
            self.best.as_mut_slice(),
        );
        let root = graph.root()?;
        self.values[root as usize].sum()
    }

    /// Leaves in the room the steps of a tree of the day of least sum, under the prices for which
    /// the pricer is filled. Takes no memory.
    pub fn tree<P: LetterPrice>(&self, graph: &Graph, prices: &P, room: &mut TreeRoom)
        requires made { IsMadeFor graph.now self.now }
        requires asks { (g : Rules) × AsksTree g (P.view prices.now) graph.now self.now room.old }
        ensures tree { (g : Rules) → AsksTree g (P.view prices.now) graph.now self.now room.old
            → HoldsLeastTree g (P.view prices.now) room.new }
        ensures kept { room.new.most ≡ room.old.most }
    {
        room.clear();
        let Some(root) = graph.root() else {
            return;
        };
        write_node(graph, &self.links, self.best.as_slice(), root, room);
    }

    /// Returns the least sum over the trees of the day with an arc at the top, under the prices for
    /// which the pricer is filled; `None` exactly where no such tree has a sum. Takes no memory.
    pub fn sum_under<P: LetterPrice>(&self, graph: &Graph, prices: &P, arc: u32) -> Option<i128>
        requires arc { arc < length graph.now.arcs }
        requires made { IsMadeFor graph.now self.now }
        requires ready { (g : Rules) × IsReady g (P.view prices.now) graph.now self.now }
        ensures least { (g : Rules) (a : Key) → IsReady g (P.view prices.now) graph.now self.now
            → IsTop g graph.now arc a
            → IsLeast (IsDayTreeUnder g a) (tree_sum (P.view prices.now) 1) result }
    {
        least_under(graph, prices, &self.links, self.values.as_slice(), arc)
    }

    /// Leaves in the room the steps of a tree of the day of least sum among those with an arc at the
    /// top, under the prices for which the pricer is filled. Takes no memory.
    pub fn tree_under<P: LetterPrice>(
        &self,
        graph: &Graph,
        prices: &P,
        arc: u32,
        room: &mut TreeRoom,
    )
        requires made { IsMadeFor graph.now self.now }
        requires asks { (g : Rules) × (a : Key)
            × AsksTreeUnder g (P.view prices.now) graph.now self.now arc a room.old }
        ensures tree { (g : Rules) (a : Key)
            → AsksTreeUnder g (P.view prices.now) graph.now self.now arc a room.old
            → HoldsLeastUnder g (P.view prices.now) a room.new }
        ensures kept { room.new.most ≡ room.old.most }
    {
        room.clear();
        write_under(graph, &self.links, self.best.as_slice(), arc, room);
    }
}
