//! The laws on any solution of a node's master.

ghost use Rattle.law_bounds.specs.near_laws.Laws.{RivalsBelowSolutions, NearAreBest, CompletedSolves, CompletedCostsLeast, NearTreesShowBest, NearCountsClose};
ghost use Rattle.law_bounds.specs.near_laws.Worked.{WorkedCompleted};

/// No rival's value is above the cost of any solution of the master, where the instance is not plainly
/// infeasible.
pub fn rivals_below_solutions()
    ensures { RivalsBelowSolutions }
{}

/// Prices whose value is within the loss of the cost of some solution are the best ones.
pub fn near_are_best()
    ensures { NearAreBest }
{}

/// Weighted trees of the day are completed to a solution by the columns that take the rows' residuals,
/// where no row without a column for what is beyond is exceeded.
pub fn completed_solves()
    ensures { CompletedSolves }
{}

/// No solution with these weights of trees costs less than the completed one, and there is none where
/// a row without a column for what is beyond is exceeded.
pub fn completed_costs_least()
    ensures { CompletedCostsLeast }
{}

/// Prices whose value is within the loss of the cost of weighted trees, so completed, are the best ones.
pub fn near_trees_show_best()
    ensures { NearTreesShowBest }
{}

/// Trees that meet the node and cost no more than such a solution cost at most what the prices show.
pub fn near_counts_close()
    ensures { NearCountsClose }
{}

/// The three shifts of the worked day with equal weights, completed: exactly, short and with more.
pub fn worked_completed()
    ensures { WorkedCompleted }
{}
