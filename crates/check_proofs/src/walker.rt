//! One step over one node.

ghost use Rattle.std.specs.Prelude.{◌≡◌, ◌≤◌, ◌<◌, Option, IfOk, IfSome, IsTrue, length};
ghost use Rattle.model_rosters.specs.SoundInstance.{IsSoundInstance};
ghost use Rattle.model_rosters.specs.declared.instance.Prices.{Prices as NodePrices};
ghost use Rattle.check_certificates.specs.Sound.{AreFit, IsSoundNode, ListNoZero, NoneIsZero};
ghost use Rattle.law_bounds.specs.Priced.{IsPricedValue};
ghost use Rattle.check_proofs.specs.OpenSplits.{IsLeaf, IsLeafValue, IsOwnValue};
ghost use Rattle.check_proofs.specs.Steps.{IsWalkerFor, way, next_visit, MayFollow, IsShown, IsStep};
ghost use Rattle.check_proofs.specs.Stacks.{AreSmall};
ghost use Rattle.check_proofs.specs.Views.{prices_of, own_prices, node_of};
ghost use Rattle.check_proofs.specs.Walked.{IsVisitCause};

use crate::node::{NodeView, PricesView};
use crate::rooms::Rooms;
use crate::stack::Stack;
use crate::tables::Tables;
use crate::walk::{Walk, lesser_cause};
use check_certificates::{Node, Why};
use check_parts::{first_loose, high, low, pinned_value, priced_value};
use model_rosters::{ArcKey, Instance, Memory};
use std::alloc::Global;

/// What a walk over the nodes of a certificate needs: a table of sums, rooms for prices and for the
/// counts of pinned leaves, and a stack of open splits. It takes all its memory when it is made.
#[derive(Drop)]
pub(crate) struct Walker {
    pub(crate) tables: Tables,
    pub(crate) rooms: Rooms,
    pub(crate) stack: Stack,
}

impl Walker {
    /// Makes a walker for certificates of an instance with at most so many nodes.
    ///
    /// # Errors
    ///
    /// `Memory` where memory runs out; nothing is kept then.
    pub(crate) fn for_nodes(
        alloc: Global,
        instance: &Instance,
        most: usize,
    ) -> Result<Walker, Memory>
        requires sound { IsSoundInstance instance.now }
        requires few { most ≤ 20001 }
        ensures walker { IfOk result (IsWalkerFor instance.now) }
        ensures most { IfOk result (λ w. w.stack.most ≡ most) }
    {
        let stack = Stack::for_splits(alloc, instance, most)?;
        let rooms = Rooms::for_instance(alloc, instance)?;
        let tables = Tables::for_instance(alloc, &instance.grammar)?;
        Ok(Walker {
            tables,
            rooms,
            stack,
        })
    }

    // Returns what prices show at the path to the next node.
    fn priced(&mut self, instance: &Instance, prices: &PricesView<'_>) -> u64
        requires sound { IsSoundInstance instance.now }
        requires walker { IsWalkerFor instance.now self.old }
        requires fit { AreFit instance.now (way self.old.stack) (prices_of prices.now) }
        requires listed { ListNoZero (prices_of prices.now) }
        requires small { AreSmall (way self.old.stack) }
        ensures value { IsPricedValue instance.now (prices_of prices.now) (way self.old.stack) result }
        ensures walker { IsWalkerFor instance.now self.new }
        ensures stack { self.new.stack ≡ self.old.stack }
    {
        priced_value(
            instance,
            prices.d,
            prices.cell,
            prices.mult,
            self.stack.path(),
            &mut self.rooms.prices,
            &mut self.tables.sums,
        )
    }

    // Returns what the own prices of a split show, if it has any and the node is right.
    fn own_value(
        &mut self,
        instance: &Instance,
        prices: &Option<PricesView<'_>>,
        is_right: bool,
    ) -> Option<u64>
        requires sound { IsSoundInstance instance.now }
        requires walker { IsWalkerFor instance.now self.old }
        requires fit { IfSome (own_prices prices.now) (AreFit instance.now (way self.old.stack)) }
        requires listed { IfSome (own_prices prices.now) ListNoZero }
        requires small { AreSmall (way self.old.stack) }
        ensures value { IsTrue is_right → IsOwnValue instance.now (way self.old.stack) (own_prices prices.now)
            result }
        ensures walker { IsWalkerFor instance.now self.new }
        ensures stack { self.new.stack ≡ self.old.stack }
    {
        match prices {
            Some(prices) if is_right => Some(self.priced(instance, prices)),
            _ => None,
        }
    }

    // Returns what a leaf shows at its path, if the node is right.
    fn leaf_value(&mut self, instance: &Instance, leaf: &NodeView<'_>, is_right: bool) -> u64
        requires sound { IsSoundInstance instance.now }
        requires walker { IsWalkerFor instance.now self.old }
        requires leaf { IsLeaf (node_of leaf.now) }
        requires fit { IsSoundNode instance.now (way self.old.stack) (node_of leaf.now) }
        requires listed { NoneIsZero (node_of leaf.now) }
        requires small { AreSmall (way self.old.stack) }
        ensures value { IsTrue is_right → IsLeafValue instance.now (way self.old.stack) (node_of leaf.now)
            result }
        ensures walker { IsWalkerFor instance.now self.new }
        ensures stack { self.new.stack ≡ self.old.stack }
    {
        match leaf {
            NodeView::Priced { prices } if is_right => self.priced(instance, prices),
            NodeView::Pinned if is_right => pinned_value(
                instance,
                self.stack.path(),
                &self.tables.arcs,
                &mut self.rooms.balances,
            ),
            _ => 0,
        }
    }

    // Ends the innermost half with a leaf. What it shows is right where the flag says so.
    fn end_half(&mut self, instance: &Instance, leaf: &NodeView<'_>, is_right: bool) -> Option<u64>
        requires sound { IsSoundInstance instance.now }
        requires walker { IsWalkerFor instance.now self.old }
        requires leaf { IsLeaf (node_of leaf.now) }
        requires node { MayFollow instance.now self.old.stack (node_of leaf.now) }
        ensures shows { IsShown instance.now self.old.stack (node_of leaf.now) is_right self.new.stack
            result }
        ensures walker { IsWalkerFor instance.now self.new }
    {
        let value = self.leaf_value(instance, leaf, is_right);
        self.stack.close(value)
    }

    // Opens a split. What its own prices show is right where the flag says so.
    fn open_split(
        &mut self,
        instance: &Instance,
        arc: ArcKey,
        b: u32,
        prices: &Option<PricesView<'_>>,
        is_right: bool,
    )
        requires sound { IsSoundInstance instance.now }
        requires walker { IsWalkerFor instance.now self.old }
        requires node { MayFollow instance.now self.old.stack (Node.Split arc b (own_prices prices.now)) }
        ensures shows { IsShown instance.now self.old.stack (Node.Split arc b (own_prices prices.now))
            is_right self.new.stack None }
        ensures walker { IsWalkerFor instance.now self.new }
    {
        let own = self.own_value(instance, prices, is_right);
        self.stack.split(arc, b, own);
    }

    // Returns what is wrong with a split of the next node's path.
    fn split_cause(&self, instance: &Instance, node: u32, arc: &ArcKey, b: u32) -> Option<Why>
        requires sound { IsSoundInstance instance.now }
        requires walker { IsWalkerFor instance.now self.now }
        requires small { AreSmall (way self.now.stack) }
        ensures { (own : Option NodePrices) → IsVisitCause instance.now
            (next_visit self.now.stack (Node.Split arc.now b own)) node result }
    {
        if !self.tables.arcs.has_arc(&instance.grammar, arc) {
            return Some(Why::NotAnArc { node });
        }
        let cuts = self.stack.path();
        if b < low(cuts, arc) || high(instance.heads_max, cuts, arc) <= b {
            return Some(Why::EmptyHalf { node });
        }
        None
    }

    // Returns what is wrong with a pinned leaf on the next node's path.
    fn pinned_cause(&self, instance: &Instance, node: u32) -> Option<Why>
        requires sound { IsSoundInstance instance.now }
        requires walker { IsWalkerFor instance.now self.now }
        requires small { AreSmall (way self.now.stack) }
        ensures { IsVisitCause instance.now (next_visit self.now.stack Node.Pinned) node result }
    {
        match first_loose(instance, self.stack.path(), &self.tables.arcs) {
            Some(arc) => Some(Why::NotPinned { node, arc }),
            None => None,
        }
    }

    // Returns what is wrong with the next node, whose number is given.
    fn node_cause(&self, instance: &Instance, number: u32, node: &NodeView<'_>) -> Option<Why>
        requires sound { IsSoundInstance instance.now }
        requires walker { IsWalkerFor instance.now self.now }
        requires small { AreSmall (way self.now.stack) }
        ensures { IsVisitCause instance.now (next_visit self.now.stack (node_of node.now)) number result }
    {
        match node {
            NodeView::Split { arc, b, .. } => self.split_cause(instance, number, arc, *b),
            NodeView::Pinned => self.pinned_cause(instance, number),
            NodeView::Priced { .. } | NodeView::Bare => None,
        }
    }

    /// Sees the next node of a certificate, in preorder. Takes no memory.
    ///
    /// The walker was made for the instance, and the node is sound on its path of cuts.
    pub(crate) fn step(&mut self, instance: &Instance, walk: Walk, node: &NodeView<'_>) -> Walk
        requires sound { IsSoundInstance instance.now }
        requires walker { IsWalkerFor instance.now self.old }
        requires few { walk.nodes < 20001 }
        requires node { MayFollow instance.now self.old.stack (node_of node.now) }
        ensures step { IsStep instance.now self.old.stack walk (node_of node.now) self.new.stack result }
        ensures walker { IsWalkerFor instance.now self.new }
    {
        let nodes = walk.nodes + 1;
        let why = lesser_cause(walk.why, self.node_cause(instance, nodes, node));
        let is_right = why.is_none();
        let shown = match node {
            NodeView::Split { arc, b, prices } => {
                self.open_split(instance, *arc, *b, prices, is_right);
                None
            }
            _ => self.end_half(instance, node, is_right),
        };
        Walk { nodes, shown, why }
    }
}
