//! What rules and arcs cost in a pass, in 64 bits.

use crate::chain::{Joint, code_of};
use model_rosters::{ArcKey, ArcPrice, LetterPrice, Memory};
use std::alloc::Global;
use tree_graph::Graph;

/// How great a price is at most: a greater one is taken for this one.
const MOST: i128 = 1 << 48;

/// How great a difference of two sums is at most: a greater one is taken for this one.
const MOST_BETWEEN: i128 = 1 << 60;

/// How many codes of rules there are: 0, and 1 plus the number of each.
const CODES: usize = 257;

/// What each rule and each arc costs in a pass.
#[derive(Drop)]
pub(crate) struct Costs {
    /// The price of each rule at its number plus 1, and 0 at 0.
    rules: Vec<i64>,
    /// The price of each arc, by its place.
    arcs: Vec<i64>,
    /// For the entries of the last prices the places of their arcs, which are looked at first the next time.
    places: Vec<u32>,
}

/// Returns a price in 64 bits.
pub(crate) fn price_of(price: i128) -> i64 {
    price.clamp(-MOST, MOST) as i64
}

/// Returns a difference of two sums in 64 bits.
pub(crate) fn difference_of(difference: i128) -> i64 {
    difference.clamp(-MOST_BETWEEN, MOST_BETWEEN) as i64
}

/// Returns the number at a place, 0 behind the last one.
fn number_at(numbers: &[i64], place: usize) -> i64 {
    numbers.get(place).copied().unwrap_or(0)
}

/// Puts a number at a place, where it is there.
pub(crate) fn put(numbers: &mut Vec<i64>, place: usize, number: i64) {
    if let Some(slot) = numbers.get_mut(place) {
        *slot = number;
    }
}

/// Returns the place of an arc, which may be known already.
fn place_of(graph: &Graph, arc: &ArcKey, known: u32) -> Option<u32> {
    if let Some(key) = graph.arcs().get(known as usize) {
        if *key == *arc {
            return Some(known);
        }
    }
    graph.find(arc)
}

impl Costs {
    /// Returns no prices, for so many arcs.
    ///
    /// # Errors
    ///
    /// `Memory` where memory runs out; nothing is kept then.
    pub fn new(alloc: Global, arcs: usize) -> Result<Costs, Memory> {
        let rules = vec![in alloc; 0i64; CODES]?;
        let prices = vec![in alloc; 0i64; arcs]?;
        let places = vec![in alloc; 0u32; arcs]?;
        Ok(Costs {
            rules,
            arcs: prices,
            places,
        })
    }

    /// Returns what an arc costs, with its rule where it is of a whole right side.
    pub fn of(&self, joint: &Joint) -> i64 {
        let rule = number_at(&self.rules, joint.code as usize);
        rule.saturating_add(number_at(&self.arcs, joint.arc as usize))
    }

    /// Sets the prices of the rules.
    fn set_rules<P: LetterPrice>(&mut self, prices: &P) {
        for rule in 0..=255u8 {
            let place = (rule as usize).saturating_add(1);
            put(&mut self.rules, place, price_of(prices.rule(rule)));
        }
    }

    /// Adds the price of the entry of this number, where the graph has its arc.
    fn add(&mut self, graph: &Graph, entry: &ArcPrice, number: usize) {
        let known = self.places.get(number).copied().unwrap_or(0);
        let Some(place) = place_of(graph, &entry.arc, known) else {
            return;
        };
        if let Some(slot) = self.places.get_mut(number) {
            *slot = place;
        }
        let sum = number_at(&self.arcs, place as usize).saturating_add(price_of(entry.price));
        put(&mut self.arcs, place as usize, sum);
    }

    /// Asks for the price of each arc.
    fn ask_all<P: LetterPrice>(&mut self, graph: &Graph, prices: &P) {
        for (place, arc) in graph.arcs().iter().enumerate() {
            put(&mut self.arcs, place, price_of(prices.arc(arc)));
        }
    }

    /// Sets what rules and arcs cost at these prices.
    pub fn set<P: LetterPrice>(&mut self, graph: &Graph, prices: &P) {
        self.set_rules(prices);
        let Some(entries) = prices.arc_prices() else {
            self.ask_all(graph, prices);
            return;
        };
        self.arcs.fill(0);
        for (number, entry) in entries.iter().enumerate() {
            self.add(graph, entry, number);
        }
    }
}

/// Returns what an arc of a graph costs at these prices, with its rule where it is of a whole right side.
pub(crate) fn arc_cost<P: LetterPrice>(prices: &P, arc: &ArcKey) -> i64 {
    let price = price_of(prices.arc(arc));
    if code_of(arc) > 0 {
        return price.saturating_add(price_of(prices.rule(arc.rule)));
    }
    price
}
