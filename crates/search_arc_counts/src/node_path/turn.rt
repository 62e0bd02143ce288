//! A cut on the way, and what its arc had before.

/// A cut on the way down: its arc's number, and the least and the greatest count that the arc had before.
#[derive(Clone, Copy, Drop)]
pub(crate) struct Turn {
    pub arc: u32,
    pub low: u32,
    pub high: u32,
}
