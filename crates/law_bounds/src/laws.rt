//! The laws on rosters, trees, prices, cuts and counts.

ghost use Rattle.law_bounds.specs.Laws.{
  LagrangianBound,
  PricedBound,
  InfeasibleHasNone,
  TreesCostLess,
  RostersCostLess,
  RostersHaveTrees,
  TreesStandForRosters,
  DayTreesHaveTeams,
  TreesSpellRosters,
  OneHalf,
  PinnedIsCost,
  AreOneValue,
};
ghost use Rattle.law_bounds.specs.Counted.{
  CountsMakeRosters,
  CountsMeetCuts,
  BaseCutsAskForArcs,
  BaseCutsLeaveCounts,
  ReducedCosts,
};
ghost use Rattle.law_bounds.specs.Plain.{PlainRosters, PlainLagrangians};
ghost use Rattle.law_bounds.specs.SmallShares.{SmallShares};
ghost use Rattle.law_bounds.specs.WorkedBest.{WorkedBest};
ghost use Rattle.law_bounds.specs.WorkedFloors.{WorkedFloors};
ghost use Rattle.law_bounds.specs.WorkedGroups.{WorkedGroups};

/// Weak duality: at any prices with multipliers of at least 0, the Lagrangian sum is at most the
/// denominator times the cost of any list of the day's trees that meets the cuts and whose number
/// and coverage are those of an allowed roster.
pub fn lagrangian_bound()
    ensures { LagrangianBound }
{}

/// What prices show is at most the cost of each such list, where the instance is not plainly infeasible.
pub fn priced_bound()
    ensures { PricedBound }
{}

/// A plainly infeasible instance has no allowed roster.
pub fn infeasible_has_none()
    ensures { InfeasibleHasNone }
{}

/// No list of trees whose counts are those of an allowed roster costs more than the greatest cost.
pub fn trees_cost_less()
    ensures { TreesCostLess }
{}

/// No allowed roster costs more than the greatest cost.
pub fn rosters_cost_less()
    ensures { RostersCostLess }
{}

/// An allowed roster has one tree of the day for each pair, with groups by the rule that the pair's
/// group adds, and together they cost what the roster costs.
pub fn rosters_have_trees()
    ensures { RostersHaveTrees }
{}

/// Any choice of one such tree for each pair of an allowed roster meets the base cuts, has the
/// number and the coverage of an allowed roster, and costs no less than the roster.
pub fn trees_stand_for_rosters()
    ensures { TreesStandForRosters }
{}

/// Each tree of the day is of a team, with groups of the one whose rule comes first: a tree of the
/// team's name has the same word and cost.
pub fn day_trees_have_teams()
    ensures { DayTreesHaveTeams }
{}

/// Trees that meet the base cuts and have the number and the coverage of an allowed roster spell one
/// that costs no more.
pub fn trees_spell_rosters()
    ensures { TreesSpellRosters }
{}

/// At every arc and number, any list of trees meets the Low cut or the High cut.
pub fn one_half()
    ensures { OneHalf }
{}

/// Where the cuts leave each arc one count, the pinned value is the cost of each list of trees that
/// meets them.
pub fn pinned_is_cost()
    ensures { PinnedIsCost }
{}

/// Lagrangian values, priced values, pinned values and points are each one value.
pub fn are_one_value()
    ensures { AreOneValue }
{}

/// Within the limits of sound instances and prices, the trees' share of a Lagrangian value is within
/// 2^116, and each cell's and each cut's share within 2^87.
pub fn small_shares()
    ensures { SmallShares }
{}

/// On a day without groups, floors and ceilings, an allowed roster is a list of shifts of the start
/// name whose number is in the range of the heads.
pub fn plain_rosters()
    ensures { PlainRosters }
{}

/// On such a day, the Lagrangian value takes the least over all counts of each cell, and is above
/// every cost only where employees are needed and the day has no tree.
pub fn plain_lagrangians()
    ensures { PlainLagrangians }
{}

/// A day of two groups, computed: its teams and base cuts, the reduced cost of two trees, and the
/// Lagrangian values 7 and 6 in halves.
pub fn worked_groups()
    ensures { WorkedGroups }
{}

/// A day of three periods with floors and ceilings that no roster keeps, computed: its greatest cost
/// is 60, and both halves of a split show 61.
pub fn worked_floors()
    ensures { WorkedFloors }
{}

/// Trees that have the counts of an allowed roster are a roster of trees at the counts' cost, with
/// the coverage of each cell at most the greatest number of employees.
pub fn counts_make_rosters()
    ensures { CountsMakeRosters }
{}

/// Trees with counts that a path leaves the arcs meet its cuts, where its High cuts are on arcs of the
/// instance.
pub fn counts_meet_cuts()
    ensures { CountsMeetCuts }
{}

/// The High base cuts of an instance that is not plainly infeasible are on arcs of the instance.
pub fn base_cuts_ask_for_arcs()
    ensures { BaseCutsAskForArcs }
{}

/// The base cuts of a sound instance leave each arc a count.
pub fn base_cuts_leave_counts()
    ensures { BaseCutsLeaveCounts }
{}

/// The reduced cost of a tree of the day is the denominator times its cost, less the prices of its
/// letters, with the multipliers of its arcs.
pub fn reduced_costs()
    ensures { ReducedCosts }
{}

/// On a day of three periods and one name, the prices 1 1 1 at the denominator 1 are best at the
/// root, and zero prices are not.
pub fn worked_best()
    ensures { WorkedBest }
{}
