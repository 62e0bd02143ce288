//! The laws on the master of a node.

ghost use Rattle.law_bounds.specs.master_laws.Ends.{WeightsApart, PathEnds};
ghost use Rattle.law_bounds.specs.master_laws.Rounding.{WideRounding};
ghost use Rattle.law_bounds.specs.master_laws.Worked.{WorkedMaster};
ghost use Rattle.law_bounds.specs.master_laws.Laws.{
  MasterSound,
  RivalsShowLess,
  RoundedShowValue,
  CutsHaveSigns,
  RoundedAreBest,
  CountsSplit,
  CountsMeet,
  CountsClose,
  RowCount,
  SmallMaster,
  TreesPriced,
  PricedOutBySums,
};

/// Each row of a master has its unit column, and no right side is negative.
pub fn master_is_sound()
    ensures { MasterSound }
{}

/// No rival's value is above the master's, where the instance is not barren.
pub fn rivals_show_less()
    ensures { RivalsShowLess }
{}

/// Rounding the prices of a master's rows takes at most the loss off its value.
pub fn rounded_show_value()
    ensures { RoundedShowValue }
{}

/// The prices of the cuts' rows have the signs of their sides.
pub fn cuts_have_signs()
    ensures { CutsHaveSigns }
{}

/// Rounded prices of a master's rows are the best ones within the loss.
pub fn rounded_are_best()
    ensures { RoundedAreBest }
{}

/// Whole weights of a solution's arcs are balanced counts, none above the number of heads.
pub fn counts_split()
    ensures { CountsSplit }
{}

/// Trees with a solution's whole counts meet the node and cost no more than the solution, where this
/// uses no artificial column.
pub fn counts_meet()
    ensures { CountsMeet }
{}

/// Such trees cost at most what the node's rounded prices show, where the solution is one of least
/// cost.
pub fn counts_close()
    ensures { CountsClose }
{}

/// A day of three shifts, computed: the master's value is 3 at the root, where each tree has the
/// weight 1/2, and 4 in both halves of a split on one tree's arc.
pub fn worked_master()
    ensures { WorkedMaster }
{}

/// A master has a row for each cell, each floor above 0, each ceiling below 64 and each cut, and two
/// for the heads.
pub fn row_count()
    ensures { RowCount }
{}

/// Right sides, entries and costs of a master are small, and no cost is negative.
pub fn small_master()
    ensures { SmallMaster }
{}

/// The sum of a tree at the prices of the rows is the reduced cost of its column and the prices of the
/// heads rows.
pub fn trees_priced()
    ensures { TreesPriced }
{}

/// A least sum of the trees tells whether some tree has a negative reduced cost.
pub fn priced_out_by_sums()
    ensures { PricedOutBySums }
{}

/// A basic solution of least cost stays one where the weights above 0 of its trees come first.
pub fn weights_apart()
    ensures { WeightsApart }
{}

/// The end of a pivot path that leaves no column a negative reduced cost has the master's value, and
/// its solution is basic and of least cost.
pub fn path_ends()
    ensures { PathEnds }
{}

/// Where a rounded number is above 2^80 in size, some price of a row is above 2^56.
pub fn wide_rounding()
    ensures { WideRounding }
{}
