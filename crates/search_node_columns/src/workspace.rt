//! The workspace of listed columns.

use lp_fractions::Place;
use model_rosters::{List, PriceRoom, TreeRoom};

/// What a listed column is.
#[derive(Clone, Copy, Drop)]
pub enum Kind {
    /// What is missing in the row of this number.
    Missing(usize),
    /// What is beyond in the row of this number.
    Beyond(usize),
    /// The tree that has this number in the pool.
    OfTree(usize),
}

/// A listed column.
#[derive(Drop)]
pub struct Held {
    /// What it is.
    pub kind: Kind,
    /// Its entries that are not 0, each -1 or 1, by rising rows.
    pub places: List<Place>,
    /// Its cost, from 0 to 2^39.
    pub cost: i64,
}

/// What a node's program needs beside what it is lent: the listed columns, those that are wanted in a
/// solution, and room for prices, for a tree and for the rows' prices by cells and cuts.
#[derive(Drop)]
pub struct ColumnWorkspace {
    /// The listed columns, which keep their numbers: the rows' own first.
    pub held: List<Held>,
    /// The numbers of those that are wanted, the most wanted first.
    pub wanted: List<u32>,
    /// Room for the prices under which a tree is asked for.
    pub(crate) prices: PriceRoom,
    /// Room for that tree.
    pub(crate) tree: TreeRoom,
    /// Room for a price of each cell, of both rows of the heads and of each cut.
    pub(crate) numbers: Vec<i128>,
}
