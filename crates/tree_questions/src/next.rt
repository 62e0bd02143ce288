//! Which codes may follow a prefix.

ghost use Rattle.std.specs.Prelude.{◌<◌, IfOk, OnOk, length};
ghost use Rattle.model_rosters.specs.Sound.{IsSound};
ghost use Rattle.tree_questions.specs.Next.{AddsNextLines, IsNextText, NextAnswer};

use crate::day_answer::DayAnswer;
use crate::front::Front;
use crate::lines::add_code_lines;
use crate::longest::longest_answer;
use crate::pattern_prices::PatternPrices;
use model_rosters::{Grammar, List, Memory};
use std::alloc::Global;
use tree_span_table::Marginals;

// Appends the lines of the codes that may follow a prefix which is no whole day.
fn add_next_lines(
    alloc: Global,
    grammar: &Grammar,
    prefix: &[u8],
    out: &mut List<u8>,
) -> Result<(), Memory>
    requires sound { IsSound grammar.now }
    requires short { length prefix.now < grammar.now.periods }
    ensures { OnOk result (AddsNextLines grammar.now prefix.now out.old out.new) }
{
    let prices = PatternPrices::new(grammar, None, prefix);
    let mut marginals = Marginals::for_instance(alloc, grammar)?;
    marginals.fill(grammar, &prices);
    let period = prefix.len() as u8 + 1;
    add_code_lines(&prices, &marginals, period, Front::Code, out)
}

// Returns the lines of the codes that may follow a prefix.
fn next_lines(alloc: Global, grammar: &Grammar, prefix: &[u8]) -> Result<List<u8>, Memory>
    requires { IsSound grammar.now }
    ensures { IfOk result (IsNextText grammar.now prefix.now) }
{
    let mut lines = List::new(alloc);
    if grammar.periods as usize <= prefix.len() {
        return Ok(lines);
    }
    add_next_lines(alloc, grammar, prefix, &mut lines)?;
    Ok(lines)
}

/// Answers which codes may follow a prefix, each with the least price of a shift that begins so.
///
/// Status 0 says a line `code C PRICE` for each such code, in the order of the codes. Status 1 comes exactly
/// where there is none, and says `longest K`, K being the length of the longest prefix of the prefix that
/// begins some shift, or `no shift` where the day has none.
///
/// # Errors
///
/// `Memory` where memory runs out; there is no answer then.
pub fn next_answer(alloc: Global, grammar: &Grammar, prefix: &[u8]) -> Result<DayAnswer, Memory>
    requires { IsSound grammar.now }
    ensures { IfOk result (λ a. NextAnswer grammar.now prefix.now a.status a.output) }
{
    let lines = next_lines(alloc, grammar, prefix)?;
    if lines.is_empty() {
        return longest_answer(alloc, grammar, prefix);
    }
    Ok(DayAnswer {
        status: 0,
        output: lines,
    })
}
