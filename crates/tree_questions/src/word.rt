//! The word of a tree.

ghost use Rattle.std.specs.Prelude.{◌≡◌, IfOk, OnOk, ◌++◌};
ghost use Rattle.model_rosters.specs.Sound.{IsSound};
ghost use Rattle.model_rosters.specs.Trees.{byte_of};
ghost use Rattle.model_rosters.specs.tree_laws.DaySteps.{AsksParts, AreDaySteps};
ghost use Rattle.tree_questions.specs.Spelled.{AddsWord, GivesWord};

use model_rosters::{Grammar, List, Memory, Step, Sym, first_and_rest, rule_of};

/// Adds the word of the tree of the day with these rule uses.
///
/// # Errors
///
/// `Memory` where memory runs out; a part may stand in `out` then.
pub fn add_word(grammar: &Grammar, steps: &[Step], out: &mut List<u8>) -> Result<(), Memory>
    requires sound { IsSound grammar.now }
    requires steps { AreDaySteps grammar.now steps.now }
    ensures { OnOk result (AddsWord grammar.now steps.now out.old out.new) }
{
    add_parts(grammar, &[Sym::Name(grammar.start)], steps, out)?;
    Ok(())
}

// Adds the word of the parts that the symbols derive, whose steps come first, and returns the steps
// that follow.
fn add_parts<'a>(
    grammar: &Grammar,
    symbols: &[Sym],
    steps: &'a [Step],
    out: &mut List<u8>,
) -> Result<&'a [Step], Memory>
    requires sound { IsSound grammar.now }
    requires parts { AsksParts grammar.now symbols.now steps.now }
    ensures { IfOk result (λ left. GivesWord grammar.now symbols.now steps.now out.old left.now out.new) }
{
    let Some((symbol, others)) = first_and_rest(symbols) else {
        return Ok(steps);
    };
    match symbol {
        Sym::Code(code) => {
            add_code(grammar, code, out)?;
            add_parts(grammar, others, steps, out)
        }
        Sym::Name(_) => {
            let Some((step, below)) = first_and_rest(steps) else {
                unreachable!();
            };
            let rule = rule_of(grammar, step.rule);
            let left = add_parts(grammar, rule.right.as_slice(), below, out)?;
            add_parts(grammar, others, left, out)
        }
    }
}

// Adds the byte of a code, where the code exists.
fn add_code(grammar: &Grammar, code: u8, out: &mut List<u8>) -> Result<(), Memory>
    ensures { OnOk result (out.new ≡ out.old ++ byte_of grammar.now code) }
{
    match grammar.codes.as_slice().get(code as usize) {
        Some(code) => out.push(code.byte),
        None => Ok(()),
    }
}
