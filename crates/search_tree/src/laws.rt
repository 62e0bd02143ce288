//! The laws on leaves, seats and paths of a search's tree.

ghost use Rattle.search_tree.specs.Laws.{CountRises, FewSeats, LeafInHand, LimitFalls, ShortPaths};

/// What is known of the tree holds for a lesser limit.
pub fn limit_falls()
    ensures { LimitFalls }
{}

/// What is known of the tree holds for a greater count of the master's refusals.
pub fn count_rises()
    ensures { CountRises }
{}

/// A leaf in hand without a plan, whose bound is below the limit, is one that is not processed.
pub fn leaf_in_hand()
    ensures { LeafInHand }
{}

/// The tree has at most twice as many nodes as are processed, and one more.
pub fn few_seats()
    ensures { FewSeats }
{}

/// A path has at most as many cuts behind the base cuts as there are processed nodes.
pub fn short_paths()
    ensures { ShortPaths }
{}
