//! The laws on a block with rest around it.

ghost use Rattle.model_sample_days.specs.RestAndWork.{IsTreeOfBlock, SumOfBlock};

/// The word `.aa.`: its tree, that tree's cost, rule uses and arcs.
pub fn tree_of_a_block()
    ensures { IsTreeOfBlock }
{}

/// The sum of that tree where a letter costs 10, an arc 100 and a rule use 1000.
pub fn sum_of_a_block()
    ensures { SumOfBlock }
{}
