//! What arcs cost, by their places: written before a pass from the listed entries, and taken back after it.

ghost use Rattle.std.specs.Prelude.{◌≡◌, ◌+◌, ◌+ℤ◌, ◌<◌, ◌≤◌, ◌^◌, ◌⊎◌, IsTrue, IsFalse, IfOk, IfSome, IfNone, Some, List as Items, ℕ, length, slice_get, slice_set};
ghost use Rattle.model_rosters.specs.declared.grammar.ArcKey.{ArcKey as Key};
ghost use Rattle.model_rosters.specs.Folds.{In};
ghost use Rattle.model_rosters.specs.RoomPrices.{listed_price};
ghost use Rattle.model_rosters.specs.Sums.{Within};
ghost use Rattle.tree_graph.specs.Graphs.{HasGrammar};
ghost use Rattle.tree_cheapest.specs.Extras.{number_at, AreWithin, AreFree, AreFreeBut, AreCosts, IsAdded};

use crate::least::Price;
use crate::number::Number;
use model_rosters::{ArcKey, ArcPrice, LetterPrice, Memory};
use std::alloc::Global;
use tree_graph::Graph;

/// What each arc of a graph costs in a pass.
#[derive(Drop)]
pub struct Extras<N: Number> {
    /// The price of each arc, by its place; 0 between passes.
    pub prices: Vec<Price<N>>,
    /// For the entries of a pass the places of their arcs, as many as there are arcs at most. They are
    /// looked at first the next time, and may be any numbers.
    pub places: Vec<u32>,
}

// Returns the place of an arc, which may be known already; `None` exactly where the graph lacks it.
fn place_of(graph: &Graph, arc: &ArcKey, known: u32) -> Option<u32>
    ensures found { IfSome result (λ p. slice_get graph.now.arcs p ≡ Some arc.now) }
    ensures none { IfNone result (In arc.now graph.now.arcs → ⊥) }
{
    if let Some(key) = graph.arcs().get(known as usize) {
        if *key == *arc {
            return Some(known);
        }
    }
    graph.find(arc)
}

// Returns the price of an entry; `None` where it is too wide.
fn price_of<N: Number>(entry: &ArcPrice) -> Option<Price<N>>
    ensures same { IfSome result (λ z. z ≡ entry.now.price) }
    ensures within { IfSome result (Within N.limits.price) }
{
    let price = Price::new(entry.price)?;
    Some(price)
}

impl<N: Number> Extras<N> {
    /// Returns no prices, for so many arcs.
    ///
    /// # Errors
    ///
    /// `Memory` where memory runs out; nothing is kept then.
    pub fn new(alloc: Global, arcs: usize) -> Result<Extras<N>, Memory>
        ensures { IfOk result (λ e. AreFree arcs e.prices.items) }
    {
        let prices = vec![in alloc; Price::zero(); arcs]?;
        let places = vec![in alloc; 0; arcs]?;
        Ok(Extras { prices, places })
    }

    // Adds to the price of the arc at a place, and returns true; false where their sum is too wide.
    fn raise(&mut self, place: usize, price: Price<N>) -> bool
        requires place { place < length self.old.prices.items }
        requires price { Within N.limits.price price }
        requires small { AreWithin N.limits.price self.old.prices.items }
        ensures raised { IsTrue result → self.new.prices.items
            ≡ slice_set self.old.prices.items place (number_at self.old.prices.items place +ℤ price) }
        ensures kept { IsFalse result → self.new.prices.items ≡ self.old.prices.items }
        ensures small { AreWithin N.limits.price self.new.prices.items }
        ensures places { self.new.places.items ≡ self.old.places.items }
    {
        let Some(sum) = self.prices[place].raised(price) else {
            return false;
        };
        self.prices[place] = sum;
        true
    }

    // Adds the price of the entry of this number, where the graph has its arc, and returns true; false
    // where a price is too wide.
    fn add(&mut self, graph: &Graph, entry: &ArcPrice, number: usize) -> bool
        requires graph { HasGrammar graph.now }
        requires count { length self.old.prices.items ≡ length graph.now.arcs }
        requires number { number < length self.old.places.items }
        requires small { AreWithin N.limits.price self.old.prices.items }
        requires free { AreFreeBut self.old.places.items 0 number self.old.prices.items }
        ensures added { IsTrue result
            → IsAdded graph.now.arcs entry.now self.old.prices.items self.new.prices.items }
        ensures count { length self.new.prices.items ≡ length graph.now.arcs }
        ensures places { length self.new.places.items ≡ length self.old.places.items }
        ensures small { AreWithin N.limits.price self.new.prices.items }
        ensures free { AreFreeBut self.new.places.items 0 (number + 1) self.new.prices.items }
    {
        let Some(place) = place_of(graph, &entry.arc, self.places[number]) else {
            return true;
        };
        let Some(price) = price_of(entry) else {
            return false;
        };
        self.places[number] = place;
        self.raise(place as usize, price)
    }

    /// Adds the prices of entries that add up, and returns true; false where a price is too wide or there
    /// are more entries than arcs.
    pub fn add_all(&mut self, graph: &Graph, entries: &[ArcPrice]) -> bool
        requires graph { HasGrammar graph.now }
        requires free { AreFree (length graph.now.arcs) self.old.prices.items }
        ensures added { IsTrue result → (k : ℕ) (a : Key) → slice_get graph.now.arcs k ≡ Some a
            → number_at self.new.prices.items k ≡ listed_price entries.now a }
        ensures count { length self.new.prices.items ≡ length graph.now.arcs }
        ensures small { AreWithin N.limits.price self.new.prices.items }
        ensures free { AreFreeBut self.new.places.items 0 (length entries.now) self.new.prices.items }
    {
        if entries.len() > self.places.len() {
            return false;
        }
        for number in 0..entries.len() {
            if !self.add(graph, &entries[number], number) {
                return false;
            }
        }
        true
    }

    /// Asks for the price of each arc, and returns true; false where one is too wide, which none is in
    /// numbers that fit all prices.
    pub fn ask_all<P: LetterPrice>(&mut self, graph: &Graph, prices: &P) -> bool
        requires count { length self.old.prices.items ≡ length graph.now.arcs }
        ensures costs { IsTrue result
            → AreCosts N.limits.price (P.view prices.now) graph.now.arcs self.new.prices.items }
        ensures fits { 2 ^ 96 ≤ N.limits.price → IsTrue result }
        ensures count { length self.new.prices.items ≡ length graph.now.arcs }
    {
        let arcs = graph.arcs();
        for place in 0..arcs.len() {
            let Some(price) = Price::new(prices.arc(&arcs[place])) else {
                return false;
            };
            self.prices[place] = price;
        }
        true
    }

    // Takes back the price of the entry of this number.
    fn clear(&mut self, number: usize)
        requires number { number < length self.old.places.items }
        ensures count { length self.new.prices.items ≡ length self.old.prices.items }
        ensures places { self.new.places.items ≡ self.old.places.items }
        ensures free { (to : ℕ) → AreFreeBut self.old.places.items number to self.old.prices.items
            → AreFreeBut self.new.places.items (number + 1) to self.new.prices.items }
    {
        let place = self.places[number] as usize;
        if place >= self.prices.len() {
            return;
        }
        self.prices[place] = Price::zero();
    }

    // Returns how many of so many entries have places.
    fn known(&self, entries: usize) -> usize
        ensures within { result ≤ length self.now.places.items }
        ensures all { (entries ≤ result) ⊎ (length self.now.places.items ≤ result) }
    {
        if entries <= self.places.len() {
            return entries;
        }
        self.places.len()
    }

    /// Takes back the prices of so many entries.
    pub fn take_back(&mut self, entries: usize)
        requires { AreFreeBut self.old.places.items 0 entries self.old.prices.items }
        ensures { AreFree (length self.old.prices.items) self.new.prices.items }
    {
        for number in 0..self.known(entries) {
            self.clear(number);
        }
    }

    /// Takes back the prices of all arcs.
    pub fn take_all_back(&mut self)
        ensures { AreFree (length self.old.prices.items) self.new.prices.items }
    {
        self.prices.fill(Price::zero());
    }
}
