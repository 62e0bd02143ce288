//! The key of a node.

/// A node of the graph: a name, or a suffix of a rule from its second symbol on, on a span.
#[derive(Clone, Copy, PartialEq, Eq, Hash, Drop)]
pub enum NodeKey {
    Name {
        name: u8,
        start: u8,
        len: u8,
    },
    Suffix {
        rule: u8,
        from: u8,
        start: u8,
        len: u8,
    },
}
