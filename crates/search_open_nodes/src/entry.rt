//! An entry of the heap.

use std::cmp::Reverse;

/// What the heap has of an open leaf. The greatest comes first: that of the least bound, of these the
/// deepest one, and of these the one with the greatest seat.
#[derive(Clone, Copy, PartialEq, Eq, PartialOrd, Ord, Drop)]
pub(crate) struct Entry {
    pub bound: Reverse<u64>,
    pub depth: u32,
    pub seat: u32,
    /// The key under which the rest of the leaf is kept.
    pub key: usize,
}
