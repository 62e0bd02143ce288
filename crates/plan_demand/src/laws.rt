//! The law.

ghost use Rattle.model_rosters.specs.declared.grammar.Grammar.{Grammar};
ghost use Rattle.plan_meaning.specs.declared.forecast.Forecast.{Forecast};
ghost use Rattle.plan_meaning.specs.declared.plan.Plan.{Plan};
ghost use Rattle.text_demand.specs.Drafts.{IsDraft};
ghost use Rattle.plan_demand.specs.Demands.{draft_of};
ghost use Rattle.plan_demand.specs.Premises.{IsDemandPlan};

/// States a law: where a plan and a forecast fit a grammar, what they ask keeps the limits of a demand text for
/// it.
pub fn draft_keeps_limits()
    ensures { (g : Grammar) (p : Plan) (f : Forecast) → IsDemandPlan g p f → IsDraft g (draft_of g p f) }
{}
