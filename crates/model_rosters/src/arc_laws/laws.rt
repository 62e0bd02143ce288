//! The laws on the arcs of an instance.

ghost use Rattle.model_rosters.specs.arc_laws.Laws.{
  ArcOnce,
  MadeOnce,
  OneList,
  TreesBalanced,
  RootCounts,
  LeavesCount,
  ArcsPay,
  ListHoldsOnce,
  TreesBalancedOver,
  RootCountsOver,
  LeavesCountOver,
  ArcsPayOver,
  PathBounds,
};

/// An arc stands at most once in a tree of the day.
pub fn arc_once()
    ensures { ArcOnce }
{}

/// At most one arc of a tree of the day makes a given name or suffix on a given span.
pub fn made_once()
    ensures { MadeOnce }
{}

/// Two lists of the arcs of an instance in their order are the same list.
pub fn one_list()
    ensures { OneList }
{}

/// How many of some trees of the day have each arc is balanced: every name or suffix on a span, save
/// the root, is made as often as it is used.
pub fn trees_balanced()
    ensures { TreesBalanced }
{}

/// The counts of the arcs that make the start name on the whole day add up to the number of trees.
pub fn root_counts()
    ensures { RootCounts }
{}

/// The counts of the arcs that use a letter add up to the number of trees that have it.
pub fn leaves_count()
    ensures { LeavesCount }
{}

/// The counts of the arcs of whole right sides, times their rules' costs, add up to the trees' cost.
pub fn arcs_pay()
    ensures { ArcsPay }
{}

/// The bounds that the cuts of a path leave an arc hold exactly the counts that keep to each cut on
/// it.
pub fn path_bounds()
    ensures { PathBounds }
{}

/// The list of the arcs in their order holds each of them once, and so the four laws that follow
/// hold of it.
pub fn list_holds_once()
    ensures { ListHoldsOnce }
{}

/// How many of some trees of the day have each arc is balanced over any list that holds each arc
/// once.
pub fn trees_balanced_over()
    ensures { TreesBalancedOver }
{}

/// The counts of the arcs that make the start name on the whole day add up to the number of trees,
/// over any list that holds each arc once.
pub fn root_counts_over()
    ensures { RootCountsOver }
{}

/// The counts of the arcs that use a letter add up to the number of trees that have it, over any
/// list that holds each arc once.
pub fn leaves_count_over()
    ensures { LeavesCountOver }
{}

/// The counts of the arcs of whole right sides, times their rules' costs, add up to the trees' cost,
/// over any list that holds each arc once.
pub fn arcs_pay_over()
    ensures { ArcsPayOver }
{}
