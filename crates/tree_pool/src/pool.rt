//! The pool, and its calls.

ghost use Rattle.std.specs.Prelude.{ℕ, ◌≡◌, ◌<◌, ◌≤◌, ◌^◌, Some, [], List as Items, length, slice_get, IfOk, IfErr, IsTrue, ◌↔◌};
ghost use Rattle.model_rosters.specs.declared.grammar.Grammar.{Grammar as Rules};
ghost use Rattle.model_rosters.specs.Sound.{IsSound};
ghost use Rattle.model_rosters.specs.Folds.{count};
ghost use Rattle.model_rosters.specs.Arcs.{same_arc};
ghost use Rattle.tree_pool.specs.Entries.{seen};
ghost use Rattle.model_rosters.specs.tree_laws.DaySteps.{AreDaySteps};
ghost use Rattle.tree_pool.specs.Pools.{PoolTree, IsPool, IsGrown, IsAdded};

use crate::entry::{Entry, entry_of};
use crate::order::{place_of, put};
use crate::tree::Tree;
use model_rosters::{ArcKey, Grammar, List, Memory, Step};
use std::alloc::Global;
use std::marker::Model;

/// The trees found so far, each once. They keep their numbers, which count from 0.
#[derive(Drop)]
pub struct Pool {
    alloc: Global,
    entries: List<Entry>,
    /// The numbers of the trees, in the order of their rule uses.
    order: Vec<usize>,
}

impl Model for Pool {
    ghost use Rattle.std.specs.Prelude.{List as Items};
    ghost use Rattle.tree_pool.specs.Entries.{all_seen};
    ghost use Rattle.tree_pool.specs.Orders.{IsOrder};
    ghost use Rattle.tree_pool.specs.Pools.{PoolTree};

    ghost Value = { Items PoolTree };

    ghost view = { λ p. all_seen p.entries };

    ghost invariant = { λ p. IsOrder p.entries p.order.items };
}

impl Pool {
    /// Returns a pool of no tree.
    pub fn new(alloc: Global) -> Pool
        ensures { result ≡ [] }
    {
        Pool {
            alloc,
            entries: List::new(alloc),
            order: Vec::new(alloc),
        }
    }

    /// Returns how many trees there are.
    pub fn len(&self) -> usize
        ensures { result ≡ length self.now }
    {
        self.entries.len()
    }

    /// Returns a tree.
    pub fn tree(&self, column: usize) -> &Tree
        requires { column < length self.now }
        ensures { (x : PoolTree) → slice_get self.now column ≡ Some x → result.now.steps ≡ x.steps }
    {
        &self.entry(column).tree
    }

    /// Returns the codes of a tree's letters by period, the first period first.
    pub fn codes(&self, column: usize) -> &[u8]
        requires { column < length self.now }
        ensures { (x : PoolTree) → slice_get self.now column ≡ Some x → result.now ≡ x.codes }
    {
        self.entry(column).facts.codes.as_slice()
    }

    /// Returns the cost of a tree.
    pub fn cost(&self, column: usize) -> u32
        requires { column < length self.now }
        ensures { (x : PoolTree) → slice_get self.now column ≡ Some x → result ≡ x.cost }
    {
        self.entry(column).facts.cost
    }

    /// Returns the arcs of a tree in their order, each as often as it stands there.
    pub fn arcs(&self, column: usize) -> &[ArcKey]
        requires { column < length self.now }
        ensures { (x : PoolTree) → slice_get self.now column ≡ Some x → result.now ≡ x.arcs }
    {
        self.entry(column).facts.arcs.as_slice()
    }

    /// Says whether a tree has an arc. Takes no memory.
    pub fn has_arc(&self, column: usize, arc: &ArcKey) -> bool
        requires { column < length self.now }
        ensures { (x : PoolTree) → slice_get self.now column ≡ Some x →
            IsTrue result ↔ (0 < count (same_arc arc.now) x.arcs) }
    {
        self.entry(column).facts.arcs.has(arc)
    }

    /// Adds a tree of the day, or finds it where it is in the pool, and returns its number.
    ///
    /// # Errors
    ///
    /// `Memory` where memory runs out; the pool is as before then.
    pub fn add(&mut self, grammar: &Grammar, steps: &[Step]) -> Result<usize, Memory>
        requires sound { IsSound grammar.now }
        requires steps { AreDaySteps grammar.now steps.now }
        requires pool { IsPool grammar.now self.old }
        ensures pool { IsPool grammar.now self.new }
        ensures grown { IsGrown self.old self.new }
        ensures added { IfOk result (IsAdded self.old self.new) }
        ensures found { IfOk result (λ n. (x : PoolTree) × (slice_get self.new n ≡ Some x)
            × (x.steps ≡ steps.now)) }
        ensures kept { IfErr result (λ _. self.new ≡ self.old) }
    {
        match place_of(self.entries.as_slice(), self.order.as_slice(), steps) {
            Ok(place) => Ok(self.order.as_slice()[place]),
            Err(place) => {
                let entry = entry_of(self.alloc, grammar, steps)?;
                put(&mut self.entries, &mut self.order, place, entry)
            }
        }
    }

    // Returns a tree with what is asked of it.
    fn entry(&self, column: usize) -> &Entry
        requires { column < length self.now }
        ensures { slice_get self.now column ≡ Some (seen result.now) }
    {
        &self.entries.as_slice()[column]
    }
}
