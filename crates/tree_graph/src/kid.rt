//! What an arc has below it.

/// What an arc has below it: its first part, or what follows that part.
#[derive(Clone, Copy, Debug, PartialEq, Eq, Drop)]
pub enum Kid {
    /// Nothing follows: the rule has one symbol.
    Nothing,
    /// A letter, by the position of its code in the grammar's `codes` and its period from 1.
    Letter { code: u8, period: u8 },
    /// A node of the graph, by its number from 0.
    Node(u32),
}
