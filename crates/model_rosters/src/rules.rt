//! The rule of a number.

ghost use Rattle.std.specs.Prelude.{◌≡◌, ◌≤◌, Some, length};
ghost use Rattle.model_rosters.specs.Grammar.{rule_at};

use crate::grammar::{Grammar, Rule};

/// Returns the rule of a number.
pub fn rule_of(grammar: &Grammar, number: u8) -> &Rule
    requires some { 1 ≤ number }
    requires within { number ≤ length grammar.now.rules }
    ensures { rule_at grammar.now number ≡ Some result.now }
{
    &grammar.rules.as_slice()[number as usize - 1]
}
