//! Rules at no cost.

ghost use Rattle.std.specs.Prelude.{◌≡◌, ◌++◌, ◌∷◌, [], IfOk, OnOk, map};
ghost use Rattle.model_rosters.specs.Sound.{IsPlain, IsSound};
ghost use Rattle.text_relaxed_days.specs.FreeRules.{free_rule, free_rules};

use model_rosters::{Grammar, List, Memory, Rule};
use std::alloc::Global;

// Appends a rule at no cost.
fn add_free_rule(alloc: Global, out: &mut List<Rule>, rule: &Rule) -> Result<(), Memory>
    ensures { OnOk result (out.new ≡ out.old ++ free_rule rule.now ∷ []) }
{
    let mut right = List::new(alloc);
    right.extend_from_slice(rule.right.as_slice())?;
    out.push(Rule {
        left: rule.left,
        cost: 0,
        right,
        span: rule.span,
        first: rule.first,
        last: rule.last,
    })
}

// Appends the rules at no cost.
fn add_free_rules(alloc: Global, out: &mut List<Rule>, rules: &[Rule]) -> Result<(), Memory>
    ensures { OnOk result (out.new ≡ out.old ++ map free_rule rules.now) }
{
    for rule in rules {
        add_free_rule(alloc, out, rule)?;
    }
    Ok(())
}

/// Returns the grammar whose rules cost nothing.
///
/// # Errors
///
/// `Memory` where memory runs out.
pub fn free_rules(alloc: Global, grammar: Grammar) -> Result<Grammar, Memory>
    ensures is { IfOk result (λ free. free ≡ free_rules grammar) }
    ensures sound { IsSound grammar → IfOk result IsSound }
    ensures plain { IsPlain grammar → IfOk result IsPlain }
{
    let mut rules = List::new(alloc);
    add_free_rules(alloc, &mut rules, grammar.rules.as_slice())?;
    Ok(Grammar { rules, ..grammar })
}
