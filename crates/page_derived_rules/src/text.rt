//! The text of a tree with its rules.

ghost use Rattle.std.specs.Prelude.{◌≡◌, ◌∷◌, [], ◌++◌, All, IfOk, OnOk, Some, length};
ghost use Rattle.text_answers.specs.TreeText.{HasRule};
ghost use Rattle.page_derived_rules.specs.RuledTrees.{ruled_text, use_lines};
ghost use Rattle.model_rosters.specs.Grammar.{rule_at};
ghost use Rattle.model_rosters.specs.Sound.{IsRule, IsSound};
ghost use Rattle.model_rosters.specs.declared.grammar.Step.{Step};
ghost use Rattle.text_lines.specs.Written.{written};

use model_rosters::{Grammar, List, Memory, Rule, Step};
use std::alloc::Global;
use text_answers::{write_tree, write_use};
use text_rules::append_rule;

// Returns the rule with a number.
fn rule_at<'a>(grammar: &'a Grammar, number: u8) -> &'a Rule
    requires sound { IsSound grammar.now }
    requires exists { HasRule grammar.now number }
    ensures rule { rule_at grammar.now number ≡ Some result.now }
    ensures sound { IsRule (length grammar.now.codes) (length grammar.now.names) result.now }
{
    &grammar.rules.as_slice()[number as usize - 1]
}

// Appends the line of a rule use, and behind it that of the rule.
fn append_lines(out: &mut List<u8>, grammar: &Grammar, step: &Step) -> Result<(), Memory>
    requires sound { IsSound grammar.now }
    requires exists { HasRule grammar.now step.now.rule }
    ensures { OnOk result (out.new ≡ out.old ++ written (use_lines grammar.now step.now)) }
{
    write_use(out, grammar, step)?;
    let rule = rule_at(grammar, step.rule);
    append_rule(
        out,
        grammar.codes.as_slice(),
        grammar.names.as_slice(),
        rule,
    )
}

/// Returns the text of a derivation of a word at this cost: the lines that `write_tree` of `text_answers`
/// writes, and behind each `use` line the line of its rule.
///
/// # Errors
///
/// `Memory` where memory runs out; there is no text then.
pub(crate) fn ruled_text(
    alloc: Global,
    grammar: &Grammar,
    word: &[u8],
    cost: u64,
    steps: &[Step],
) -> Result<List<u8>, Memory>
    requires sound { IsSound grammar.now }
    requires rules { All (λ (s : Step). HasRule grammar.now s.rule) steps.now }
    ensures { IfOk result (λ text. text ≡ ruled_text grammar.now word.now cost steps.now) }
{
    let mut out = write_tree(alloc, grammar, word, cost, &[])?;
    for step in steps {
        append_lines(&mut out, grammar, step)?;
    }
    Ok(out)
}
