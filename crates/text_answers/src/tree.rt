//! The text of a derivation.

ghost use Rattle.std.specs.Prelude.{◌≡◌, ◌∷◌, [], ◌++◌, All, IfOk, OnOk};
ghost use Rattle.model_rosters.specs.Sound.{IsSound};
ghost use Rattle.text_lines.specs.Written.{written};
ghost use Rattle.model_rosters.specs.declared.grammar.Step.{Step};
ghost use Rattle.text_answers.specs.TreeText.{HasRule, left_name, tree_text, use_line};

use crate::write::write_field;
use model_rosters::{Grammar, List, Memory, Step};
use std::alloc::Global;
use text_lines::put;

// The name on the left side of a rule.
fn left_name<'a>(grammar: &'a Grammar, rule: u8) -> &'a [u8]
    requires sound { IsSound grammar.now }
    requires exists { HasRule grammar.now rule }
    ensures { result.now ≡ left_name grammar.now rule }
{
    let rule = &grammar.rules.as_slice()[rule as usize - 1];
    grammar.names.as_slice()[rule.left as usize].as_slice()
}

/// Appends the line of a rule use: `use R NAME START LENGTH`, where NAME is the left side of rule R.
///
/// # Errors
///
/// `Memory` where memory runs out; a part of the line may stand then.
pub fn write_use(out: &mut List<u8>, grammar: &Grammar, step: &Step) -> Result<(), Memory>
    requires sound { IsSound grammar.now }
    requires exists { HasRule grammar.now step.now.rule }
    ensures { OnOk result (out.new ≡ out.old ++ written (use_line grammar.now step.now ∷ [])) }
{
    put(out, b"use")?;
    write_field(out, u64::from(step.rule))?;
    out.push(b' ')?;
    put(out, left_name(grammar, step.rule))?;
    write_field(out, u64::from(step.start))?;
    write_field(out, u64::from(step.len))?;
    out.push(b'\n')
}

/// Returns the text of a derivation: the line `word WORD`, the line `cost X`, and then, in the order of the
/// steps, a line `use R NAME START LENGTH` for each, where NAME is the left side of rule R.
///
/// # Errors
///
/// `Memory` where memory runs out; there is no text then.
pub fn write_tree(
    alloc: Global,
    grammar: &Grammar,
    word: &[u8],
    cost: u64,
    steps: &[Step],
) -> Result<List<u8>, Memory>
    requires sound { IsSound grammar.now }
    requires rules { All (λ (s : Step). HasRule grammar.now s.rule) steps.now }
    ensures { IfOk result (λ text. text ≡ tree_text grammar.now word.now cost steps.now) }
{
    let mut out = List::new(alloc);
    put(&mut out, b"word ")?;
    put(&mut out, word)?;
    put(&mut out, b"\ncost")?;
    write_field(&mut out, cost)?;
    out.push(b'\n')?;
    for step in steps {
        write_use(&mut out, grammar, step)?;
    }
    Ok(out)
}
