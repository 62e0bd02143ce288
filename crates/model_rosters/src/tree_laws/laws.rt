//! The laws on trees and their least sums.

ghost use Rattle.model_rosters.specs.tree_laws.Laws.{OneLeastTree, OneLeastParts, SplitByFirst, SplitByRule, FewUses, SmallSums};

/// A symbol's trees on a span have one least sum.
pub fn one_least_tree()
    ensures { OneLeastTree }
{}

/// The parts of some symbols on a span have one least sum.
pub fn one_least_parts()
    ensures { OneLeastParts }
{}

/// Among the parts of two or more symbols whose first part has a given length, the least sum is that
/// of the first part, plus the arc, plus that of the others.
pub fn split_by_first()
    ensures { SplitByFirst }
{}

/// Among the trees of a name by one rule that stands on the span, the least sum is the rule's price
/// plus that of its parts.
pub fn split_by_rule()
    ensures { SplitByRule }
{}

/// A tree of a name on a span of `l` periods has at most `(2l - 1) * names` rule uses.
pub fn few_uses()
    ensures { FewUses }
{}

/// Under prices within 2^96, the sum of parts on at most 96 periods is within 2^110.
pub fn small_sums()
    ensures { SmallSums }
{}
