//! What stands before a code on a line.

/// What stands before a code and its price on a line.
#[derive(Clone, Copy, Drop)]
pub enum Front {
    /// The word `code`.
    Code,
    /// The word `at` and a period.
    At(u8),
}
