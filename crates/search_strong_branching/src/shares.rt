//! Weights of trees, in units of 2^-32.

/// The weight of a tree of the pool.
#[derive(Clone, Copy, Debug, Drop)]
pub struct Share {
    /// The number of the tree in the pool.
    pub column: usize,
    /// Its weight, in units of 2^-32.
    pub weight: i64,
}
