//! The laws on plans and the grammars that are written for them.

ghost use Rattle.plan_laws.specs.Laws.{PlanLaw};
ghost use Rattle.plan_laws.specs.PlanRules.{RulesLaw};
ghost use Rattle.plan_laws.specs.Readings.{ReadingLaw};
ghost use Rattle.plan_laws.specs.SmallPlan.{AreMet};
ghost use Rattle.plan_laws.specs.Turned.{TurningLaw};

/// States a law: in a grammar that is written for a plan, a tree of a stretch's name has a word that is a
/// stretch, at a cost at least its cost, and each stretch of the day has a tree at exactly its cost; for the
/// name of some duty lines the words derived over the whole day are exactly their shifts, and the least cost
/// of a tree is exactly the price.
pub fn plan_law()
    ensures { PlanLaw }
{}

/// States a law: a word is a shift of a duty line in at most one way. Its time off, the blocks of each part
/// and its price by the line are told by the word alone.
pub fn one_reading()
    ensures { ReadingLaw }
{}

/// States a law: the premises of [`plan_law`] can be met. A grammar of twelve names is written for a small
/// plan with a line that has a plus and one that has none.
pub fn premises_are_met()
    ensures { AreMet }
{}

/// States a law: a plan of minutes and of units an hour and its numbers of periods have the same shifts of
/// each duty line at the same prices, and so of each duty name, where all lengths and times are whole periods
/// and amounts of an hour come out even in a period.
pub fn same_meaning()
    ensures { TurningLaw }
{}

/// States a law: a grammar that is written for the numbers of periods of a plan says what the plan, as it is
/// written, means. A name of duty lines has exactly the shifts of the duty name whose lines these are, each
/// at exactly its price, and so has a name over several such names of all lines.
pub fn rules_say_plan()
    ensures { RulesLaw }
{}
