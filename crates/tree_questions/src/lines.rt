//! The lines of codes and their prices.

ghost use Rattle.std.specs.Prelude.{ℕ, ◌≡◌, ◌≤◌, ◌<◌, ◌++◌, ◌∷◌, [], Option as Maybe, OnOk, length};
ghost use Rattle.model_rosters.specs.Sound.{IsSound};
ghost use Rattle.text_lines.specs.Numbers.{number_text};
ghost use Rattle.text_lines.specs.Written.{spaced, written};
ghost use Rattle.tree_span_table.specs.next_codes.Views.{AreMarginals, IsMadeFor};
ghost use Rattle.tree_questions.specs.Prices.{pattern_view};
ghost use Rattle.tree_questions.specs.Codes.{AddsCodeLines, price_lines};
ghost use Rattle.tree_questions.specs.Laws.{IsSumOf, TakesWith};
ghost use Rattle.tree_questions.specs.Fronts.{front_words};

use crate::front::Front;
use crate::pattern_prices::PatternPrices;
use model_rosters::{Grammar, List, Memory};
use text_lines::{field, put, signed_field};
use tree_span_table::Marginals;

// Appends the words before a code.
fn write_front(out: &mut List<u8>, front: Front) -> Result<(), Memory>
    ensures { OnOk result (out.new ≡ out.old ++ spaced (front_words front)) }
{
    match front {
        Front::Code => put(out, b"code"),
        Front::At(period) => {
            put(out, b"at")?;
            field(out, u64::from(period))
        }
    }
}

// Appends the line of a code and its price.
fn write_line(out: &mut List<u8>, front: Front, byte: u8, price: &i128) -> Result<(), Memory>
    ensures { OnOk result (out.new ≡ out.old
        ++ written ((front_words front ++ ((byte ∷ []) ∷ number_text price.now ∷ [])) ∷ [])) }
{
    write_front(out, front)?;
    out.push(b' ')?;
    out.push(byte)?;
    signed_field(out, price)?;
    out.push(b'\n')
}

// Appends the line of a code, where it has a price.
fn write_code(out: &mut List<u8>, front: Front, byte: u8, price: Option<i128>) -> Result<(), Memory>
    ensures { OnOk result ((p : Maybe ℕ) → IsSumOf price p
        → out.new ≡ out.old ++ written (price_lines (front_words front) byte p)) }
{
    match price {
        Some(price) => write_line(out, front, byte, &price),
        None => Ok(()),
    }
}

/// Appends the lines of the codes that stand at a period in shifts whose front the pattern takes, each with
/// the least price of such a shift, in the order of the codes.
///
/// # Errors
///
/// `Memory` where memory runs out; a part may stand in `out` then.
pub fn add_code_lines(
    prices: &PatternPrices<'_>,
    marginals: &Marginals,
    period: u8,
    front: Front,
    out: &mut List<u8>,
) -> Result<(), Memory>
    requires sound { IsSound prices.now.grammar.now }
    requires pattern { length prices.now.pattern.now ≤ prices.now.grammar.now.periods }
    requires made { IsMadeFor prices.now.grammar.now marginals.now }
    requires filled { AreMarginals prices.now.grammar.now
        (pattern_view prices.now.grammar.now prices.now.any prices.now.pattern.now) marginals.now }
    requires first { 1 ≤ period }
    requires last { period ≤ prices.now.grammar.now.periods }
    ensures { OnOk result (AddsCodeLines prices.now.grammar.now (front_words front)
        (TakesWith prices.now.any prices.now.pattern.now period) out.old out.new) }
{
    let codes = prices.grammar.codes.as_slice();
    for (place, code) in codes.iter().enumerate() {
        write_code(out, front, code.byte, marginals.at(place as u8, period))?;
    }
    Ok(())
}
