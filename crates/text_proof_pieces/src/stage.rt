//! What a text goes on with.

/// What a proof text goes on with.
#[derive(Clone, Copy, Drop)]
pub enum Stage {
    /// The text has too many bytes.
    TooLong,
    /// The header and the cost.
    Start,
    /// The bound, and then shifts where the cost is a number.
    Bound { paid: bool },
    /// A shift behind so many, or a node.
    Shifts { count: u32 },
    /// A node, or the end of the text.
    Nodes,
    /// All was given.
    Over,
}
