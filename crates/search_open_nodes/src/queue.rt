//! The heap and the slab.

ghost use Rattle.std.specs.Prelude.{◌≡◌, ◌≤◌, [], ◌∷◌, IfNone, MatchOption, OnOk, OnErr, length};
ghost use Rattle.model_rosters.specs.Folds.{Each};
ghost use Rattle.search_open_nodes.specs.Queues.{SameLeaves};

use crate::entry::Entry;
use crate::leaf::{Kept, OpenLeaf};
use model_rosters::Memory;
use slab::Slab;
use std::alloc::Global;
use std::cmp::Reverse;
use std::collections::BinaryHeap;
use std::marker::Model;

/// Open leaves, of which one of least bound is known at once. Of leaves with the same bound the deepest
/// one comes first, and of these the one with the greatest seat.
#[derive(Drop)]
pub struct OpenNodes {
    heap: BinaryHeap<Entry>,
    kept: Slab<Kept>,
}

impl Model for OpenNodes {
    ghost use Rattle.std.specs.Prelude.{List, map};
    ghost use Rattle.std.specs.BinaryHeap.{heap_items, IsHeap};
    ghost use Rattle.search_open_nodes.specs.declared.leaf.OpenLeaf.{OpenLeaf as Leaf};
    ghost use Rattle.search_open_nodes.specs.Held.{leaf_of, AreHeld};

    ghost Value = { List Leaf };

    ghost view = { λ q. map (leaf_of q.kept) (heap_items q.heap) };

    ghost invariant = { λ q. IsHeap ⟦<Entry as Ord>⟧.cmp (heap_items q.heap)
        × AreHeld (heap_items q.heap) q.kept };
}

impl OpenNodes {
    /// Returns no leaves.
    pub fn new(alloc: Global) -> OpenNodes
        ensures { result ≡ [] }
    {
        OpenNodes {
            heap: BinaryHeap::new(alloc),
            kept: Slab::new(alloc),
        }
    }

    /// Returns how many leaves there are.
    pub fn len(&self) -> usize
        ensures { result ≡ length self.now }
    {
        self.heap.len()
    }

    /// Adds a leaf.
    ///
    /// # Errors
    ///
    /// `Memory` where memory runs out; all leaves are as before then.
    pub fn push(&mut self, leaf: OpenLeaf) -> Result<(), Memory>
        ensures ok { OnOk result (SameLeaves (leaf ∷ self.old) self.new) }
        ensures err { OnErr result (SameLeaves self.old self.new) }
    {
        self.heap.reserve(1)?;
        let key = self.kept.insert(leaf.kept)?;
        let entry = Entry {
            bound: Reverse(leaf.bound),
            depth: leaf.depth,
            seat: leaf.kept.seat,
            key,
        };
        let _ = self.heap.push(entry);
        Ok(())
    }

    /// Removes a leaf of least bound; `None` exactly where there is none.
    pub fn pop(&mut self) -> Option<OpenLeaf>
        ensures taken { MatchOption result (self.old ≡ []) (λ leaf. SameLeaves self.old (leaf ∷ self.new)
            × Each (λ o. leaf.bound ≤ o.bound) self.new) }
        ensures none { IfNone result (self.new ≡ []) }
    {
        let entry = self.heap.pop()?;
        let kept = self.kept.remove(entry.key);
        Some(OpenLeaf {
            bound: entry.bound.0,
            depth: entry.depth,
            kept,
        })
    }
}
