//! What a tree costs.

ghost use Rattle.std.specs.Prelude.{◌≡◌, ◌≤◌, All, length};
ghost use Rattle.model_rosters.specs.Folds.{sum_n};
ghost use Rattle.model_rosters.specs.Sound.{IsSound};
ghost use Rattle.tree_pool.specs.Costs.{HasRule, step_cost};

use model_rosters::{Grammar, Step, rule_of};

/// Returns the sum of the costs of the rules of some steps, at most 6,303: a tree of 96 periods has at most
/// 191 spans of different parts, and uses each of 33 names at most once on a span. So the sum is below 2^26.
pub fn cost_of(grammar: &Grammar, steps: &[Step]) -> u32
    requires sound { IsSound grammar.now }
    requires rules { All (HasRule grammar.now) steps.now }
    requires few { length steps.now ≤ 6303 }
    ensures { result ≡ sum_n (step_cost grammar.now) steps.now }
{
    let mut cost = 0;
    for step in steps {
        cost += step_cost(grammar, step);
    }
    cost
}

// Returns the cost of the rule of a step.
fn step_cost(grammar: &Grammar, step: &Step) -> u32
    requires sound { IsSound grammar.now }
    requires rule { HasRule grammar.now step.now }
    ensures cost { result ≡ step_cost grammar.now step.now }
    ensures small { result ≤ 10000 }
{
    rule_of(grammar, step.rule).cost
}
