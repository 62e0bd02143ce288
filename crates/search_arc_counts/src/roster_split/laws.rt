//! The law that balanced numbers are the counts of a list of trees.

ghost use Rattle.search_arc_counts.specs.roster_split.Balanced.{SplitBalanced};

/// Numbers that are balanced at every name and suffix save the root are the counts of the arcs of a
/// list of the day's trees, as many as the root's count.
pub fn split_balanced()
    ensures { SplitBalanced }
{}
