//! The laws.

ghost use Rattle.plan_rules.specs.PlanSays.{PlanSaysLaw};
ghost use Rattle.plan_rules.specs.RuleTexts.{TextSaysLaw};
ghost use Rattle.plan_rules.specs.SaidPlans.{SaidLaw};
ghost use Rattle.plan_rules.specs.SoundLaws.{SoundLaw};
ghost use Rattle.plan_rules.specs.WrittenLaws.{WrittenLaw};

/// States a law: what [`crate::written_rules`] writes is a grammar that is written for the plan, in the
/// words of the law of plans and their grammars, by numbers that are places of names and of codes; the
/// start is the name of all lines, and the number of a duty name's day is that of the name.
pub fn rules_are_written()
    ensures { WrittenLaw }
{}

/// States a law: where the duty lines of a plan, in numbers of periods, are handed to
/// [`crate::written_rules`] by duty names, the grammar that is written says the plan as its planner wrote
/// it. The start name has exactly the shifts of all duty lines, and each duty name, which is a name of the
/// grammar, exactly those of its lines, each at exactly its price.
pub fn rules_say_plan()
    ensures { PlanSaysLaw }
{}

/// States a law: the grammar of the names that the rules of a plan need is sound, where the plan's numbers,
/// costs, codes and duty names are those that a plan text can say ([`crate::written_rules`] checks it before
/// it is handed out), and there are no more names and rules than a rules text can say.
pub fn rules_are_sound()
    ensures { SoundLaw }
{}

/// States a law: a fit plan is one of small numbers, costs, codes and duty names, as [`rules_are_sound`]
/// asks, where it has beside what a plan text can say only.
pub fn said_plans_are_writable()
    ensures { SaidLaw }
{}

/// States a law: where the duty lines of a plan, in numbers of periods, are handed to
/// [`crate::rules_text_of`] by duty names, the text reads as a grammar that says the plan as its planner
/// wrote it, in the words of [`rules_say_plan`].
pub fn text_says_plan()
    ensures { TextSaysLaw }
{}
