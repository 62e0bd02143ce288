//! A number at the place that a node's key tells, tested before it is used.

ghost use Rattle.std.specs.Prelude.{◌≡◌, ◌≤◌, Some, IfSome, slice_get};

use crate::node::NodeKey;
use indexmap::IndexSet;
use model_rosters::Memory;
use std::alloc::Global;

/// A number at each of some places. The key of a node tells its place, and two nodes may have the same
/// one, so a number is a guess, which is tested before it is given.
#[derive(Drop)]
pub struct Guesses {
    numbers: Vec<u32>,
}

// The place of what stands on a span, where there is no end of places: all spans of one thing stand
// together.
#[inline(always)]
fn spot(what: usize, start: u8, len: u8) -> usize
    requires { what ≤ 3000 }
{
    (what * 97 + usize::from(len)) * 97 + usize::from(start)
}

// The place of a node, where there is no end of places.
#[inline(always)]
fn place_of(key: &NodeKey) -> usize {
    match *key {
        NodeKey::Name { name, start, len } => spot(usize::from(name), start, len),
        NodeKey::Suffix {
            rule,
            from,
            start,
            len,
        } => spot(33 + usize::from(rule) * 8 + usize::from(from), start, len),
    }
}

impl Guesses {
    /// Returns as many places as there are arcs, or up to twice as many.
    ///
    /// # Errors
    ///
    /// `Memory` where memory runs out; nothing is kept then.
    pub fn new(alloc: Global, arcs: usize) -> Result<Guesses, Memory>
        requires { arcs ≤ 100000 }
    {
        let numbers = vec![in alloc; 0; arcs.next_power_of_two()]?;
        Ok(Guesses { numbers })
    }

    // The place of a node, where the number of places is a power of two.
    #[inline(always)]
    fn place(&self, key: &NodeKey) -> usize {
        place_of(key) & self.numbers.len().saturating_sub(1)
    }

    /// Returns the number of a node where it is the one at its place.
    #[inline(always)]
    pub fn number(&self, nodes: &IndexSet<NodeKey>, key: &NodeKey) -> Option<u32>
        ensures { IfSome result (λ n. slice_get nodes.now.keys n ≡ Some key.now) }
    {
        let number = *self.numbers.get(self.place(key))?;
        let found = nodes.get_index(number as usize)?;
        if *found == *key { Some(number) } else { None }
    }

    /// Keeps the number of a node at its place.
    pub fn keep(&mut self, key: &NodeKey, number: u32) {
        let place = self.place(key);
        if place < self.numbers.len() {
            self.numbers[place] = number;
        }
    }
}
