//! Columns, and whether they may enter.

/// Whether a column may enter the basis.
#[derive(Clone, Copy, Drop)]
pub enum Standing {
    /// It is in the basis.
    Basic,
    /// It may enter.
    Free,
    /// The program has no such column.
    Barred,
}

/// A column.
#[derive(Clone, Copy, Drop)]
pub struct Column {
    /// Where its runs begin.
    pub(crate) first: usize,
    /// Where they end.
    pub(crate) end: usize,
    pub(crate) cost: i64,
    pub(crate) standing: Standing,
}

impl Column {
    /// Returns what it costs.
    pub fn cost(&self) -> i64 {
        self.cost
    }

    /// Whether it may enter the basis.
    pub fn is_free(&self) -> bool {
        matches!(self.standing, Standing::Free)
    }

    /// Whether it is in the basis.
    pub(crate) fn is_basic(&self) -> bool {
        matches!(self.standing, Standing::Basic)
    }
}
