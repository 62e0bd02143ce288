//! The codes of a tree's letters.

ghost use Rattle.std.specs.Prelude.{◌≡◌, IfOk};
ghost use Rattle.model_rosters.specs.Sound.{IsSound};
ghost use Rattle.model_rosters.specs.tree_laws.DaySteps.{AsksParts, AreDaySteps};
ghost use Rattle.tree_pool.specs.Letters.{GivesCodes, AreCodesOf};

use model_rosters::{Grammar, List, Memory, Step, Sym, first_and_rest, rule_of};
use std::alloc::Global;

/// Returns the codes of the letters of a tree of the day, in their order.
///
/// # Errors
///
/// `Memory` where memory runs out; nothing is kept then.
pub fn codes_of(alloc: Global, grammar: &Grammar, steps: &[Step]) -> Result<List<u8>, Memory>
    requires sound { IsSound grammar.now }
    requires steps { AreDaySteps grammar.now steps.now }
    ensures { IfOk result (AreCodesOf grammar.now steps.now) }
{
    let mut codes = List::new(alloc);
    add_codes(grammar, &[Sym::Name(grammar.start)], steps, &mut codes)?;
    Ok(codes)
}

// Adds the codes of the parts that the symbols derive, whose steps come first, and returns the steps
// that follow.
fn add_codes<'a>(
    grammar: &Grammar,
    symbols: &[Sym],
    steps: &'a [Step],
    codes: &mut List<u8>,
) -> Result<&'a [Step], Memory>
    requires sound { IsSound grammar.now }
    requires parts { AsksParts grammar.now symbols.now steps.now }
    ensures { IfOk result (λ left. GivesCodes grammar.now symbols.now steps.now codes.old left.now
        codes.new) }
{
    let Some((symbol, others)) = first_and_rest(symbols) else {
        return Ok(steps);
    };
    match symbol {
        Sym::Code(code) => {
            codes.push(code)?;
            add_codes(grammar, others, steps, codes)
        }
        Sym::Name(_) => {
            let Some((step, below)) = first_and_rest(steps) else {
                unreachable!();
            };
            let rule = rule_of(grammar, step.rule);
            let left = add_codes(grammar, rule.right.as_slice(), below, codes)?;
            add_codes(grammar, others, left, codes)
        }
    }
}
