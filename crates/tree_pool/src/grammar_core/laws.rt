//! The laws on the two lists that tell a tree.

ghost use Rattle.tree_pool.specs.grammar_core.Lists.{StepsTellTree, ArcsTellTree, ListsTellOneTree};

/// Two trees of a name on a span with the same steps are one tree.
pub fn steps_tell_tree()
    ensures { StepsTellTree }
{}

/// Two trees of a name of a sound grammar on a span with the same arcs are one tree.
pub fn arcs_tell_tree()
    ensures { ArcsTellTree }
{}

/// The arcs that `tree_to_items` gives and the steps that `items_to_tree` gives tell the tree that the
/// other list told, so its word and cost stay.
pub fn lists_tell_one_tree()
    ensures { ListsTellOneTree }
{}
