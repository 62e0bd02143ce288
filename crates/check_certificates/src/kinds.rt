//! Which nodes were processed, and which splits have no prices.

ghost use Rattle.std.specs.Prelude.{◌≡◌};
ghost use Rattle.check_certificates.specs.Kinds.{is_processed, is_unpriced};

use crate::cert::Node;

/// Returns whether the node was processed: whether it is a split or a leaf that shows something.
pub fn is_processed(node: &Node) -> bool
    ensures { result ≡ is_processed node.now }
{
    match node {
        Node::Split { .. } | Node::Priced { .. } | Node::Pinned => true,
        Node::Bare => false,
    }
}

/// Returns whether the node is a split without prices.
pub fn is_unpriced(node: &Node) -> bool
    ensures { result ≡ is_unpriced node.now }
{
    match node {
        Node::Split { prices, .. } => prices.is_none(),
        Node::Priced { .. } | Node::Pinned | Node::Bare => false,
    }
}
