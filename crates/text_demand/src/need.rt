//! Need, `least` and `most` lines.

ghost use Rattle.std.specs.Prelude.{◌≡◌};
ghost use Rattle.model_rosters.specs.Sound.{IsSound};
ghost use Rattle.text_demand_lines.specs.Steps.{Reads};
ghost use Rattle.text_demand.specs.Lines.{has_need, has_bound, need_of, need_at, bound_at};

use crate::counts::counts;
use model_rosters::{Grammar, List};
use std::alloc::Global;
use text_demand_lines::{Bound, DemandFault, Need, number, work};
use text_lines::Words;

// Says whether a need line of the code was said.
fn has_need(needs: &[Need], code: u8) -> bool
    ensures { result ≡ has_need needs.now code }
{
    needs.iter().any(|need| need.code == code)
}

// Says whether a bound of the code was said.
fn has_bound(bounds: &[Bound], code: u8) -> bool
    ensures { result ≡ has_bound bounds.now code }
{
    bounds.iter().any(|bound| bound.code == code)
}

// Reads a need line, which has the words that must stand there.
#[tactic(auto, unfolding(crate::specs::Lines::need_of))]
fn need_of(
    alloc: Global,
    grammar: &Grammar,
    needs: &mut List<Need>,
    line: u32,
    code: &[u8],
    under: &[u8],
    over: &[u8],
    words: &mut Words<'_>,
) -> Result<(), DemandFault>
    requires { IsSound grammar.now }
    ensures value { Reads (λ _. (needs.new)) result
        (need_of line grammar.now needs.old code.now under.now over.now words.old) }
{
    let code = work(line, grammar.codes.as_slice(), code)?;
    if has_need(needs.as_slice(), code) {
        return Err(DemandFault::Twice { line });
    }
    let under = number(line, 0, 10_000, under)?;
    let over = number(line, 0, 10_000, over)?;
    let counts = counts(alloc, line, grammar.periods, words)?;
    let need = Need {
        code,
        under,
        over,
        counts,
    };
    needs.push(need)?;
    Ok(())
}

/// Reads a need line, behind its first word.
///
/// # Errors
///
/// The line's first fault, as `need_at` says it, with the line's number. `Memory` may come at any time.
/// Nothing is said of the needs then.
#[tactic(auto, unfolding(crate::specs::Lines::need_at))]
pub fn need(
    alloc: Global,
    grammar: &Grammar,
    needs: &mut List<Need>,
    line: u32,
    words: &mut Words<'_>,
) -> Result<(), DemandFault>
    requires { IsSound grammar.now }
    ensures value { Reads (λ _. (needs.new)) result (need_at line grammar.now needs.old words.old) }
{
    let Some(code) = words.next() else {
        return Err(DemandFault::UnknownLine { line });
    };
    let Some(under) = words.next() else {
        return Err(DemandFault::UnknownLine { line });
    };
    let Some(over) = words.next() else {
        return Err(DemandFault::UnknownLine { line });
    };
    need_of(alloc, grammar, needs, line, code, under, over, words)
}

/// Reads a `least` or a `most` line, behind its first word.
///
/// # Errors
///
/// The line's first fault, as `bound_at` says it, with the line's number: `UnknownLine`, `NotWork`, `NoNeed`
/// where no need line of the code stands before, `Twice`, or one of the counts. `Memory` may come at any
/// time. Nothing is said of the bounds then.
#[tactic(auto, unfolding(crate::specs::Lines::bound_at))]
pub fn bound(
    alloc: Global,
    grammar: &Grammar,
    needs: &[Need],
    bounds: &mut List<Bound>,
    line: u32,
    words: &mut Words<'_>,
) -> Result<(), DemandFault>
    requires { IsSound grammar.now }
    ensures value { Reads (λ _. (bounds.new)) result
        (bound_at line grammar.now needs.now bounds.old words.old) }
{
    let Some(code) = words.next() else {
        return Err(DemandFault::UnknownLine { line });
    };
    let code = work(line, grammar.codes.as_slice(), code)?;
    if !has_need(needs, code) {
        return Err(DemandFault::NoNeed { line });
    }
    if has_bound(bounds.as_slice(), code) {
        return Err(DemandFault::Twice { line });
    }
    let counts = counts(alloc, line, grammar.periods, words)?;
    bounds.push(Bound { code, counts })?;
    Ok(())
}
