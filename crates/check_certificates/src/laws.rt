//! The law that the nodes of a certificate are those of one tree.

ghost use Rattle.check_certificates.specs.Laws.{OneTree};

/// A list of nodes begins with the preorder of at most one tree, so the nodes of a certificate are
/// those of one tree alone.
pub fn one_tree()
    ensures { OneTree }
{}
