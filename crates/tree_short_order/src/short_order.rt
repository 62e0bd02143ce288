//! The short order, and all its calls.

ghost use Rattle.std.specs.Prelude.{◌≡◌, ◌<◌, IfOk, IfSome, length};
ghost use Rattle.model_rosters.specs.declared.grammar.ArcKey.{ArcKey as Key};
ghost use Rattle.model_rosters.specs.declared.grammar.Grammar.{Grammar as Rules};
ghost use Rattle.model_rosters.specs.tree_laws.DaySteps.{AreDaySteps};
ghost use Rattle.tree_short_order.specs.Best.{AreBest};
ghost use Rattle.tree_short_order.specs.Shorts.{IsShortFor, HasRoot};
ghost use Rattle.tree_short_order.specs.Shorts.{AsksDayTree, AsksDayTreeUnder, HoldsTreeUnder};

use crate::best::first_arcs;
use crate::chain::{Chain, Spot, letters_of, slot_of, slots_of};
use crate::costs::{Costs, arc_cost, difference_of};
use crate::keeping::{keep_chain, keep_cheap, pass_down};
use crate::pass::{FAR, pass, sum_at};
use crate::walk::{write_node, write_under};
use model_rosters::{LetterPrice, Memory, TreeRoom};
use std::alloc::Global;
use tree_graph::Graph;

/// What a pass over arcs works in.
#[derive(Drop)]
pub(crate) struct Work {
    /// The letters that the arcs use.
    letters: Vec<Spot>,
    /// What rules and arcs cost.
    costs: Costs,
    /// The sum in each slot: those of the nodes, of nothing, and of the letters.
    sums: Vec<i64>,
    /// What the rest of a cheapest tree with each node costs.
    beside: Vec<i64>,
    /// All arcs, in their order.
    all: Chain,
    /// Those of them that are kept.
    kept: Chain,
}

/// Some arcs of a graph, in an order in which each stands after those that make what it uses, and what a pass
/// over them finds.
#[derive(Drop)]
pub struct ShortOrder {
    /// What a pass works in.
    pub(crate) work: Work,
    /// For each node an arc that makes it: one of a cheapest tree of it, where it has a sum.
    pub(crate) best: Vec<u32>,
}

impl Work {
    /// Takes the memory for passes over the arcs of a graph, all of which are kept.
    ///
    /// # Errors
    ///
    /// `Memory` where memory runs out; nothing is kept then.
    fn new(alloc: Global, graph: &Graph) -> Result<Work, Memory> {
        let nodes = graph.nodes();
        let letters = letters_of(alloc, graph)?;
        let costs = Costs::new(alloc, graph.arcs().len())?;
        let sums = vec![in alloc; 0i64; slots_of(nodes, &letters)]?;
        let beside = vec![in alloc; 0i64; nodes as usize]?;
        let mut all = Chain::for_graph(alloc, graph)?;
        all.fill(graph)?;
        let mut kept = Chain::for_graph(alloc, graph)?;
        keep_chain(&all, &mut kept)?;
        Ok(Work {
            letters,
            costs,
            sums,
            beside,
            all,
            kept,
        })
    }

    /// Passes all arcs at these prices, and keeps those whose cheapest tree is dearer than the cheapest one
    /// by at most this much.
    fn keep<P: LetterPrice>(
        &mut self,
        graph: &Graph,
        prices: &P,
        above: i64,
        best: &mut Vec<u32>,
    ) -> Result<(), Memory>
        requires { AreBest graph.now best.old.items }
        ensures { AreBest graph.now best.new.items }
    {
        self.costs.set(graph, prices);
        pass(
            graph,
            prices,
            &self.costs,
            &self.letters,
            &self.all,
            &mut self.sums,
            best,
        );
        let least = self.root_sum(graph);
        if least >= FAR {
            return keep_chain(&self.all, &mut self.kept);
        }
        let most = least.saturating_add(above).min(FAR);
        pass_down(
            graph,
            &self.all,
            &self.costs,
            &self.sums,
            most,
            &mut self.beside,
        );
        keep_cheap(
            graph,
            &self.all,
            &self.costs,
            &self.sums,
            most,
            &self.beside,
            &mut self.kept,
        )
    }

    /// Returns the sum of the root, `FAR` or more where it has none.
    fn root_sum(&self, graph: &Graph) -> i64 {
        match graph.root() {
            Some(root) => sum_at(&self.sums, root),
            None => FAR,
        }
    }
}

impl ShortOrder {
    /// Returns all arcs of a graph, in their order. Later calls take the same graph.
    ///
    /// It has taken the memory for all of them: 44 bytes for each arc, 52 for each node, and 8 for each code
    /// at each of 256 periods.
    ///
    /// # Errors
    ///
    /// `Memory` where memory runs out; nothing is kept then.
    pub fn new(alloc: Global, graph: &Graph) -> Result<ShortOrder, Memory>
        ensures { IfOk result (IsShortFor graph.now) }
    {
        let best = first_arcs(alloc, graph)?;
        let work = Work::new(alloc, graph)?;
        Ok(ShortOrder { work, best })
    }

    /// Keeps the arcs whose cheapest tree of the day is dearer than the cheapest one of all by this much at
    /// most, both over all arcs and at these prices; all arcs, where there is none. Takes no memory.
    pub fn keep<P: LetterPrice>(&mut self, graph: &Graph, prices: &P, above: i128)
        requires made { IsShortFor graph.now self.old }
        ensures made { IsShortFor graph.now self.new }
    {
        let _kept = self
            .work
            .keep(graph, prices, difference_of(above), &mut self.best);
    }

    /// Keeps all arcs. Takes no memory.
    pub fn keep_all(&mut self, graph: &Graph)
        requires made { IsShortFor graph.now self.old }
        ensures made { IsShortFor graph.now self.new }
    {
        let _kept = keep_chain(&self.work.all, &mut self.work.kept);
    }

    /// Returns the sum of a cheapest tree of the day at these prices of those whose arcs are all kept; `None`
    /// where there is none. Prices beyond 2^48 and sums beyond 2^59 in size are taken for these. `tree` and
    /// `tree_under` write such trees afterwards. Takes no memory.
    pub fn cheapest<P: LetterPrice>(&mut self, graph: &Graph, prices: &P) -> Option<i128>
        requires made { IsShortFor graph.now self.old }
        ensures some { IfSome result (λ z. HasRoot graph.now) }
        ensures made { IsShortFor graph.now self.new }
    {
        let work = &mut self.work;
        work.costs.set(graph, prices);
        pass(
            graph,
            prices,
            &work.costs,
            &work.letters,
            &work.kept,
            &mut work.sums,
            &mut self.best,
        );
        let root = graph.root()?;
        sum_below(sum_at(&self.work.sums, root))
    }

    /// Leaves in the room the steps of a tree of the day: of the one that the last pass found, where it found
    /// one. Takes no memory.
    pub fn tree(&self, graph: &Graph, room: &mut TreeRoom)
        requires made { IsShortFor graph.now self.now }
        requires asks { (g : Rules) × AsksDayTree g graph.now room.old }
        ensures tree { (g : Rules) → AsksDayTree g graph.now room.old → AreDaySteps g room.new.steps }
        ensures kept { room.new.most ≡ room.old.most }
    {
        room.clear();
        let Some(root) = graph.root() else {
            return;
        };
        write_node(graph, &self.best, root, room);
    }

    /// Returns the sum of a cheapest tree of the day with an arc at the top of those whose other arcs are all
    /// kept, at the prices of the last pass, which are these; `None` where there is none. Takes no memory.
    pub fn sum_under<P: LetterPrice>(&self, graph: &Graph, prices: &P, arc: u32) -> Option<i128>
        requires arc { arc < length graph.now.arcs }
        requires made { IsShortFor graph.now self.now }
    {
        let (first, rest) = graph.children(arc);
        let nodes = graph.nodes();
        let sums = &self.work.sums;
        let sum = sum_at(sums, slot_of(first, nodes))
            .saturating_add(arc_cost(prices, &graph.arcs()[arc as usize]))
            .saturating_add(sum_at(sums, slot_of(rest, nodes)));
        sum_below(sum)
    }

    /// Leaves in the room the steps of a tree of the day with an arc at the top: of the one that the last
    /// pass found, where it found one. Takes no memory.
    pub fn tree_under(&self, graph: &Graph, arc: u32, room: &mut TreeRoom)
        requires made { IsShortFor graph.now self.now }
        requires asks { (g : Rules) × (a : Key) × AsksDayTreeUnder g graph.now arc a room.old }
        ensures tree { (g : Rules) (a : Key) → AsksDayTreeUnder g graph.now arc a room.old
            → HoldsTreeUnder g a room.new }
        ensures kept { room.new.most ≡ room.old.most }
    {
        room.clear();
        write_under(graph, &self.best, arc, room);
    }
}

/// Returns a sum that is there, `None` for one that stands for none.
fn sum_below(sum: i64) -> Option<i128> {
    if sum < FAR {
        return Some(i128::from(sum));
    }
    None
}
