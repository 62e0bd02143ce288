//! The box, and all its calls.

ghost use Rattle.std.specs.Prelude.{ℕ, ◌≡◌, ◌≤◌, ◌<◌, ◌↔◌, List, [], ◌∷◌, ◌++◌, All, IsTrue, IfOk, MatchOption, Some, length, slice_get, slice_set};
ghost use Rattle.model_rosters.specs.declared.grammar.ArcKey.{ArcKey as Arc};
ghost use Rattle.model_rosters.specs.declared.instance.Cut.{Cut};
ghost use Rattle.model_rosters.specs.declared.instance.Instance.{Instance as Day};
ghost use Rattle.model_rosters.specs.declared.instance.Side.{Side as Half};
ghost use Rattle.model_rosters.specs.SoundInstance.{IsSoundInstance};
ghost use Rattle.model_rosters.specs.arc_laws.Lists.{AreArcs};
ghost use Rattle.law_bounds.specs.Pinned.{IsPinned, IsPinnedValue};
ghost use Rattle.tree_graph.specs.Graphs.{GraphView, IsGraph};
ghost use Rattle.search_arc_counts.specs.count_boxes.Boxes.{bounds_at, halved, IsBoxFor, IsPinnedBox, IsFirstOpen};
ghost use Rattle.search_arc_counts.specs.count_boxes.Costs.{low_of, IsCostOf, pinned_number};
ghost use Rattle.search_arc_counts.specs.count_boxes.Paths.{IsBoxOf, WasBoxOf, IsLooseAt};

use crate::count_boxes::bounds::Bounds;
use crate::count_boxes::cost::least_cost;
use check_parts::place_count;
use model_rosters::{Instance, Memory, Side};
use std::alloc::Global;
use std::marker::Model;
use tree_graph::Graph;

/// The bounds that the cuts of a path leave the counts of an instance's arcs. An arc is named by its
/// number in the graph, from 0.
#[derive(Drop)]
pub struct ArcBox {
    bounds: Vec<Bounds>,
    // The room in which the counts of a pinned box are balanced.
    nodes: Vec<i64>,
}

impl Model for ArcBox {
    ghost use Rattle.std.specs.Prelude.{◌≤◌, All, length};
    ghost use Rattle.search_arc_counts.specs.count_boxes.Boxes.{BoxView, IsSmall};

    ghost Value = { BoxView };

    ghost view = { λ b. record { bounds = b.bounds.items; places = length b.nodes.items } };

    ghost invariant = { λ b. (length b.bounds.items ≤ 100000) × All IsSmall b.bounds.items };
}

impl ArcBox {
    /// Returns a box of the instance on its graph that leaves each arc all counts, 0 to `heads_max`.
    ///
    /// It takes all its memory here: eight bytes for each arc, eight for each name and for seven
    /// suffixes of each rule on each span of the day, and eight for 96 periods of each code.
    ///
    /// # Errors
    ///
    /// `Memory` where memory runs out; nothing is kept then.
    pub fn new(alloc: Global, instance: &Instance, graph: &Graph) -> Result<ArcBox, Memory>
        requires sound { IsSoundInstance instance.now }
        requires graph { IsGraph instance.now.grammar graph.now }
        ensures { IfOk result (IsBoxOf instance.now graph.now []) }
    {
        let all = Bounds {
            low: 0,
            high: instance.heads_max,
        };
        let bounds = vec![in alloc; all; graph.arcs().len()]?;
        let nodes = vec![in alloc; 0; place_count(&instance.grammar)]?;
        Ok(ArcBox { bounds, nodes })
    }

    /// Returns the least count of an arc.
    pub fn low(&self, arc: u32) -> u32
        requires { arc < length self.now.bounds }
        ensures { result ≡ (bounds_at self.now.bounds arc).low }
    {
        self.bounds[arc as usize].low
    }

    /// Returns the greatest count of an arc.
    pub fn high(&self, arc: u32) -> u32
        requires { arc < length self.now.bounds }
        ensures { result ≡ (bounds_at self.now.bounds arc).high }
    {
        self.bounds[arc as usize].high
    }

    /// Leaves an arc the counts on one side of a number: with `Low` those up to `b`, and with `High`
    /// those from `b + 1` on. Returns the least and the greatest count that it had before.
    pub fn cut(&mut self, arc: u32, side: Side, b: u32) -> (u32, u32)
        requires arc { arc < length self.old.bounds }
        requires low { (bounds_at self.old.bounds arc).low ≤ b }
        requires high { b < (bounds_at self.old.bounds arc).high }
        ensures before { result ≡ (
          (bounds_at self.old.bounds arc).low,
          (bounds_at self.old.bounds arc).high,
        ) }
        ensures after { self.new ≡ record self.old
            { bounds = slice_set self.old.bounds arc (halved side b (bounds_at self.old.bounds arc)) } }
        ensures path { (i : Day) (v : GraphView) (cuts : List Cut) (a : Arc) → IsGraph i.grammar v
            → slice_get v.arcs arc ≡ Some a
            → IsBoxOf i v cuts self.old
            → IsBoxOf i v (cuts ++ record { arc = a; side = side; b = b } ∷ []) self.new }
    {
        let bounds = self.bounds[arc as usize];
        self.bounds[arc as usize] = bounds.halved(side, b);
        (bounds.low, bounds.high)
    }

    /// Gives an arc the least and the greatest count that [`ArcBox::cut`] answered.
    pub fn set_back(&mut self, arc: u32, old: (u32, u32))
        requires arc { arc < length self.old.bounds }
        requires order { old.0 ≤ old.1 }
        requires few { old.1 ≤ 64 }
        ensures after { self.new ≡ record self.old
            { bounds = slice_set self.old.bounds arc (record { low = old.0; high = old.1 }) } }
        ensures path { (i : Day) (v : GraphView) (cuts : List Cut) (a : Arc) (side : Half) (b : ℕ)
            → IsGraph i.grammar v → slice_get v.arcs arc ≡ Some a
            → IsBoxOf i v (cuts ++ record { arc = a; side = side; b = b } ∷ []) self.old
            → WasBoxOf i cuts a old → IsBoxOf i v cuts self.new }
    {
        let (low, high) = old;
        self.bounds[arc as usize] = Bounds { low, high };
    }

    /// Returns whether the box leaves each arc at most one count.
    pub fn pinned(&self) -> bool
        ensures bounds { IsTrue result ↔ IsPinnedBox self.now }
        ensures path { (i : Day) (v : GraphView) (cuts : List Cut) → IsGraph i.grammar v
            → IsBoxOf i v cuts self.now → (IsTrue result ↔ IsPinned i cuts) }
    {
        self.bounds.iter().all(|bounds| bounds.high <= bounds.low)
    }

    /// Returns the first arc to which the box leaves more than one count, `None` exactly where it is
    /// pinned.
    pub fn first_loose(&self) -> Option<u32>
        ensures bounds { MatchOption result (IsPinnedBox self.now) (IsFirstOpen self.now) }
        ensures path { (i : Day) (v : GraphView) (cuts : List Cut) → IsGraph i.grammar v
            → IsBoxOf i v cuts self.now → MatchOption result (IsPinned i cuts) (IsLooseAt i v cuts) }
    {
        let place = self
            .bounds
            .iter()
            .position(|bounds| bounds.low < bounds.high)?;
        Some(place as u32)
    }

    /// Returns the cost of the least counts of the arcs, which in a pinned box are the only ones:
    /// rule costs and penalties of the cells. `None` exactly where they are the counts of no allowed
    /// roster. The box was made for the instance and its graph. Takes no memory.
    pub fn pinned_cost(&mut self, instance: &Instance, graph: &Graph) -> Option<u64>
        requires sound { IsSoundInstance instance.now }
        requires graph { IsGraph instance.now.grammar graph.now }
        requires made { IsBoxFor instance.now graph.now self.old }
        ensures counts { IsCostOf instance.now graph.now.arcs (low_of graph.now.arcs self.old.bounds) result }
        ensures listed { (listed : List Arc) → AreArcs instance.now.grammar listed
            → IsCostOf instance.now listed (low_of graph.now.arcs self.old.bounds) result }
        ensures path { (cuts : List Cut) → IsBoxOf instance.now graph.now cuts self.old
            → IsPinnedValue instance.now cuts (pinned_number instance.now result) }
        ensures kept { self.new ≡ self.old }
    {
        least_cost(
            instance,
            graph,
            self.bounds.as_slice(),
            self.nodes.as_mut_slice(),
        )
    }
}
