//! A basis that is handed on.

use lp_float_simplex::Key;
use model_rosters::{List, Memory};
use std::alloc::Global;

/// The basis with which a program ended, told so that another program over the same rows can begin with it.
/// It is a hint: whatever it holds, a program that begins with it stays right. An empty one says nothing.
#[derive(Drop)]
pub struct LastBasis {
    /// The trees in it, by their numbers in the pool.
    pub trees: List<usize>,
    /// The columns of rows in it; none of them is a listed one.
    pub own: List<Key>,
}

impl LastBasis {
    /// Returns a basis that says nothing.
    pub fn new(alloc: Global) -> LastBasis {
        LastBasis {
            trees: List::new(alloc),
            own: List::new(alloc),
        }
    }

    /// Returns the keys of the basis in a program that lists its trees first, in their order.
    ///
    /// # Errors
    ///
    /// `Memory` where memory runs out; nothing is kept then.
    pub fn keys(&self, alloc: Global) -> Result<List<Key>, Memory> {
        let mut keys = List::new(alloc);
        for key in self.own.as_slice() {
            keys.push(*key)?;
        }
        for number in 0..self.trees.len() {
            keys.push(Key::Listed(number))?;
        }
        Ok(keys)
    }
}
