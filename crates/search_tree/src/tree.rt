//! The tree, and its calls.

ghost use Rattle.std.specs.Prelude.{ℕ, ◌≡◌, ◌≤◌, ◌<◌, [], ◌∷◌, IfNone, IfOk, OnOk, MatchOption, length, List as Items};
ghost use Rattle.model_rosters.specs.Cuts.{base_cuts};
ghost use Rattle.check_certificates.specs.Nodes.{preorder};
ghost use Rattle.check_certificates.specs.growing_laws.Grown.{Grown, OnTips, tip_bound, proof_of};
ghost use Rattle.check_certificates.specs.growing_laws.Boxes.{IsOpenLeaf};
ghost use Rattle.check_certificates.specs.growing_laws.Seats.{HoldTree};
ghost use Rattle.search_open_nodes.specs.declared.leaf.OpenLeaf.{OpenLeaf as Waiting};
ghost use Rattle.search_tree.specs.Views.{Site, TreeView};
ghost use Rattle.search_tree.specs.Trees.{last_count, IsTree};
ghost use Rattle.search_tree.specs.Steps.{IsHalfOf};
ghost use Rattle.search_tree.specs.Asked.{AsksSplit, IsHalved, AsksPinned, AsksPriced, AsksFailed, IsProcessed};

use crate::seats::{mark_leaf, push_half, split_leaf};
use check_certificates::{Node, Seat, list_nodes};
use model_rosters::{ArcKey, Cut, List, Memory, Prices, Side};
use search_open_nodes::{Kept, OpenLeaf, OpenNodes, Plan};
use std::alloc::Global;
use std::marker::Model;

// A cut that no path has.
fn no_cut() -> Cut {
    let arc = ArcKey {
        rule: 0,
        suffix: 0,
        start: 0,
        len: 0,
        part: 0,
    };
    Cut {
        arc,
        side: Side::Low,
        b: 0,
    }
}

// Returns a half of a leaf, with its number.
fn half_of(leaf: OpenLeaf, seat: u32) -> OpenLeaf
    ensures { IsHalfOf leaf seat result }
{
    OpenLeaf {
        bound: leaf.bound,
        depth: leaf.depth.saturating_add(1),
        kept: Kept { seat, plan: None },
    }
}

/// The tree of a search while it grows.
#[derive(Drop)]
pub struct SearchTree {
    seats: Vec<Seat>,
    waiting: OpenNodes,
    processed: u32,
    failed: u32,
}

impl Model for SearchTree {
    ghost use Rattle.search_tree.specs.Views.{TreeView};

    ghost Value = { TreeView };

    ghost view = { λ t. record
        { seats = t.seats.items; waiting = t.waiting; processed = t.processed; failed = t.failed } };
}

impl SearchTree {
    /// Returns a tree of one leaf that is not processed.
    ///
    /// # Errors
    ///
    /// `Memory` where memory runs out; nothing is kept then.
    pub fn new(alloc: Global) -> Result<SearchTree, Memory>
        ensures tree { IfOk result (λ w. (s : Site) (limit now : ℕ) → s.before ≤ now
            → (t : Grown) × IsTree s limit now 0 [] w t) }
        ensures none { IfOk result (λ w. w.processed ≡ 0) }
    {
        let mut seats = Vec::new(alloc);
        push_half(&mut seats, 0, 0, no_cut())?;
        let mut waiting = OpenNodes::new(alloc);
        waiting.push(OpenLeaf {
            bound: 0,
            depth: 0,
            kept: Kept {
                seat: 0,
                plan: None,
            },
        })?;
        Ok(SearchTree {
            seats,
            waiting,
            processed: 0,
            failed: 0,
        })
    }

    /// Returns how many nodes are processed.
    pub fn processed(&self) -> u32
        ensures { result ≡ self.now.processed }
    {
        self.processed
    }

    /// Returns how many splits have no prices.
    pub fn failed(&self) -> u32
        ensures { result ≡ self.now.failed }
    {
        self.failed
    }

    /// Returns how many leaves wait.
    pub fn waiting(&self) -> usize
        ensures { result ≡ length self.now.waiting }
    {
        self.waiting.len()
    }

    /// Returns the seats of the tree's nodes.
    pub fn seats(&self) -> &[Seat]
        ensures { result.now ≡ self.now.seats }
    {
        self.seats.as_slice()
    }

    /// Takes a leaf of least bound, where this is below the limit; `None` where no open leaf leaves such a
    /// bound, and then one that leaves more may be taken and let go.
    pub fn next(&mut self, limit: u64) -> Option<OpenLeaf>
        ensures same { (self.new.seats ≡ self.old.seats) × (self.new.processed ≡ self.old.processed)
            × (self.new.failed ≡ self.old.failed) }
        ensures taken { (s : Site) (now low : ℕ) (t : Grown) → IsTree s limit now low [] self.old t
            → MatchOption result
            (OnTips (λ up path k l. IsOpenLeaf l → limit ≤ tip_bound up l) 0 (base_cuts s.day) t)
            (λ leaf. (leaf.bound < limit) × IsTree s limit now leaf.bound (leaf ∷ []) self.new t) }
        ensures left { (s : Site) (now low : ℕ) (t : Grown) → IsTree s limit now low [] self.old t
            → IfNone result ((hand : Items Waiting) × IsTree s limit now low hand self.new t) }
    {
        let leaf = self.waiting.pop()?;
        if leaf.bound < limit { Some(leaf) } else { None }
    }

    /// Splits the leaf in hand, which has prices, where its plan says, on the arc of this number. Returns
    /// the half that is to be processed; the other waits.
    ///
    /// # Errors
    ///
    /// `Memory` where memory runs out; nothing is said of the tree then.
    pub fn split(&mut self, leaf: OpenLeaf, plan: Plan, arc: ArcKey) -> Result<OpenLeaf, Memory>
        requires { AsksSplit self.old leaf plan arc }
        ensures { IfOk result (λ half. (asked : AsksSplit self.old leaf plan arc)
            → IsHalved asked.site asked.limit asked.now self.old self.new leaf half) }
    {
        let low = split_leaf(&mut self.seats, leaf.kept.seat, leaf.bound, arc, plan.b)?;
        self.waiting.push(half_of(leaf, low))?;
        Ok(half_of(leaf, low + 1))
    }

    /// Says of the leaf in hand that its cuts leave each arc one count, and what these cost.
    pub fn pin(&mut self, leaf: OpenLeaf, value: u64)
        requires { AsksPinned self.old leaf value }
        ensures { (asked : AsksPinned self.old leaf value)
            → IsProcessed asked.taken.site asked.taken.limit asked.taken.now asked.taken.low self.old
            self.new }
    {
        mark_leaf(&mut self.seats, leaf.kept.seat, Node::Pinned, value);
        self.processed += 1;
    }

    /// Gives the leaf in hand its prices and what they show, and lets it wait.
    ///
    /// # Errors
    ///
    /// `Memory` where memory runs out; nothing is said of the tree then.
    pub fn price(
        &mut self,
        leaf: OpenLeaf,
        prices: Prices,
        value: u64,
        plan: Option<Plan>,
    ) -> Result<(), Memory>
        requires { AsksPriced self.old leaf prices value plan }
        ensures { OnOk result ((asked : AsksPriced self.old leaf prices value plan)
            → IsProcessed asked.taken.site asked.taken.limit asked.taken.now asked.taken.low self.old
            self.new) }
    {
        mark_leaf(
            &mut self.seats,
            leaf.kept.seat,
            Node::Priced { prices },
            value,
        );
        self.processed += 1;
        self.waiting.push(OpenLeaf {
            bound: leaf.bound.max(value),
            depth: leaf.depth,
            kept: Kept {
                seat: leaf.kept.seat,
                plan,
            },
        })
    }

    /// Splits the leaf in hand without prices, on an arc at a number; both halves wait.
    ///
    /// # Errors
    ///
    /// `Memory` where memory runs out; nothing is said of the tree then.
    pub fn fail(&mut self, leaf: OpenLeaf, arc: ArcKey, b: u32) -> Result<(), Memory>
        requires { (later : ℕ) × AsksFailed self.old leaf arc b later }
        ensures { OnOk result ((later : ℕ) → (asked : AsksFailed self.old leaf arc b later)
            → IsProcessed asked.taken.site asked.taken.limit later asked.taken.low self.old self.new) }
    {
        let low = split_leaf(&mut self.seats, leaf.kept.seat, leaf.bound, arc, b)?;
        self.waiting.push(half_of(leaf, low))?;
        self.waiting.push(half_of(leaf, low + 1))?;
        self.processed += 1;
        self.failed += 1;
        Ok(())
    }

    /// Returns the nodes of the tree in preorder.
    ///
    /// # Errors
    ///
    /// `Memory` where memory runs out; nothing is kept then.
    pub fn into_nodes(self, alloc: Global) -> Result<List<Node>, Memory>
        requires few { length self.seats < 4294967295 }
        requires tree { (t : Grown) × HoldTree self.seats t }
        ensures { IfOk result (λ nodes. (t : Grown) → HoldTree self.seats t → nodes ≡ preorder (proof_of t)) }
    {
        list_nodes(alloc, self.seats)
    }
}
