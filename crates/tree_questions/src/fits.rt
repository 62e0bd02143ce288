//! Which shifts fit a pattern.

ghost use Rattle.std.specs.Prelude.{◌≡◌, IfOk, OnOk, Some, length};
ghost use Rattle.model_rosters.specs.Sound.{IsSound};
ghost use Rattle.tree_span_table.specs.next_codes.Views.{AreMarginals, IsMadeFor};
ghost use Rattle.tree_questions.specs.Prices.{pattern_view};
ghost use Rattle.tree_questions.specs.Shifts.{any_code};
ghost use Rattle.tree_questions.specs.Fitting.{AddsOpenLines, FitsAnswer, IsLeastSum};

use crate::day_answer::{DayAnswer, no_shift};
use crate::front::Front;
use crate::lines::add_code_lines;
use crate::pattern_prices::PatternPrices;
use model_rosters::{Grammar, List, Memory};
use std::alloc::Global;
use text_lines::{put, signed_field};
use tree_span_table::Marginals;

// The byte that stands in a pattern for any code; no code has it.
const ANY: u8 = b'#';

// Appends the lines of the open periods, from what is filled for the pattern.
fn add_period_lines(
    prices: &PatternPrices<'_>,
    marginals: &Marginals,
    out: &mut List<u8>,
) -> Result<(), Memory>
    requires sound { IsSound prices.now.grammar.now }
    requires any { prices.now.any ≡ Some any_code }
    requires pattern { length prices.now.pattern.now ≡ prices.now.grammar.now.periods }
    requires made { IsMadeFor prices.now.grammar.now marginals.now }
    requires filled { AreMarginals prices.now.grammar.now
        (pattern_view prices.now.grammar.now prices.now.any prices.now.pattern.now) marginals.now }
    ensures { OnOk result (AddsOpenLines prices.now.grammar.now prices.now.pattern.now out.old out.new) }
{
    for (place, byte) in prices.pattern.iter().enumerate() {
        if *byte == ANY {
            let period = place as u8 + 1;
            add_code_lines(prices, marginals, period, Front::At(period), out)?;
        }
    }
    Ok(())
}

// Says the least price of a fitting shift, and the codes of the open periods.
fn fitting(
    alloc: Global,
    prices: &PatternPrices<'_>,
    marginals: &Marginals,
    least: &i128,
) -> Result<DayAnswer, Memory>
    requires sound { IsSound prices.now.grammar.now }
    requires any { prices.now.any ≡ Some any_code }
    requires pattern { length prices.now.pattern.now ≡ prices.now.grammar.now.periods }
    requires made { IsMadeFor prices.now.grammar.now marginals.now }
    requires filled { AreMarginals prices.now.grammar.now
        (pattern_view prices.now.grammar.now prices.now.any prices.now.pattern.now) marginals.now }
    requires least { IsLeastSum prices.now.grammar.now prices.now.pattern.now least.now }
    ensures { IfOk result (λ a. FitsAnswer prices.now.grammar.now prices.now.pattern.now a.status a.output) }
{
    let mut output = List::new(alloc);
    put(&mut output, b"least")?;
    signed_field(&mut output, least)?;
    output.push(b'\n')?;
    add_period_lines(prices, marginals, &mut output)?;
    Ok(DayAnswer { status: 0, output })
}

// Answers which shifts fit a pattern of the day's length, for which the marginals are filled once.
fn fits_by(
    alloc: Global,
    prices: &PatternPrices<'_>,
    marginals: &mut Marginals,
) -> Result<DayAnswer, Memory>
    requires sound { IsSound prices.now.grammar.now }
    requires any { prices.now.any ≡ Some any_code }
    requires pattern { length prices.now.pattern.now ≡ prices.now.grammar.now.periods }
    requires made { IsMadeFor prices.now.grammar.now marginals.old }
    ensures { IfOk result (λ a. FitsAnswer prices.now.grammar.now prices.now.pattern.now a.status a.output) }
{
    match marginals.fill(prices.grammar, prices) {
        Some(least) => fitting(alloc, prices, marginals, &least),
        None => no_shift(alloc),
    }
}

// Answers which shifts fit a pattern of the day's length, with marginals of its own.
fn fits_in(alloc: Global, prices: &PatternPrices<'_>) -> Result<DayAnswer, Memory>
    requires sound { IsSound prices.now.grammar.now }
    requires any { prices.now.any ≡ Some any_code }
    requires pattern { length prices.now.pattern.now ≡ prices.now.grammar.now.periods }
    ensures { IfOk result (λ a. FitsAnswer prices.now.grammar.now prices.now.pattern.now a.status a.output) }
{
    let mut marginals = Marginals::for_instance(alloc, prices.grammar)?;
    fits_by(alloc, prices, &mut marginals)
}

/// Answers which shifts fit a pattern, in which the byte `#` stands for any code.
///
/// Status 0 says `least PRICE`, the least price of a shift that fits, and then for each open period T in
/// order a line `at T C PRICE` for each code C that some fitting shift has there, in the order of the codes,
/// with the least price of such a shift. Status 1 comes exactly where no shift fits, and says `no shift`.
///
/// # Errors
///
/// `Memory` where memory runs out; there is no answer then.
pub fn fits_answer(alloc: Global, grammar: &Grammar, pattern: &[u8]) -> Result<DayAnswer, Memory>
    requires { IsSound grammar.now }
    ensures { IfOk result (λ a. FitsAnswer grammar.now pattern.now a.status a.output) }
{
    if pattern.len() != grammar.periods as usize {
        return no_shift(alloc);
    }
    let prices = PatternPrices::new(grammar, Some(ANY), pattern);
    fits_in(alloc, &prices)
}
