//! The names of columns.

/// The name of a column.
#[derive(Clone, Copy, Debug, PartialEq, Eq, Drop)]
pub enum Key {
    /// The column whose one entry is 1, in this row: what is missing there.
    Missing(usize),
    /// The column whose one entry is -1, in this row: what is beyond there.
    Beyond(usize),
    /// A listed column, by its number.
    Listed(usize),
}
