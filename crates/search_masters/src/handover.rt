//! What goes from node to node.

use lp_float_programs::LastBasis;
use model_rosters::List;
use std::alloc::Global;

/// What is handed on from node to node of a search. All of it are hints.
#[derive(Drop)]
pub struct Handover {
    /// Trees of the pool that are wanted, the most wanted first: any list of numbers is lawful.
    pub wanted: List<usize>,
    /// The basis with which the last column generation ended; an empty one where none was made.
    pub last: LastBasis,
    /// Prices of the cells at which the first column generation may begin, in units of 2^-24; none where none
    /// are known. A master takes them.
    pub cells: List<i128>,
}

impl Handover {
    /// Returns hints that say nothing.
    pub fn new(alloc: Global) -> Handover {
        Handover {
            wanted: List::new(alloc),
            last: LastBasis::new(alloc),
            cells: List::new(alloc),
        }
    }
}
