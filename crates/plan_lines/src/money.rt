//! The money.

ghost use Rattle.std.specs.Prelude.{◌≡◌};
ghost use Rattle.std.specs.Option.{option_copied};
ghost use Rattle.plan_faults.specs.declared.fault.LineFault.TheVariants as line;
ghost use Rattle.plan_faults.specs.declared.fault.StandFault.TheVariants as stand;
ghost use Rattle.plan_fields.specs.Steps.{Reads};
ghost use Rattle.plan_lines.specs.MoneyLines.{decimals_word, has_amounts, money_line, money_words, new_money};

use crate::day::{miscounted, second};
use plan_faults::{Kind, LineFault, StandFault};
use plan_fields::{Draft, count, number, short_name};
use plan_meaning::Money;
use std::alloc::Global;
use text_lines::Words;

/// The name of the money has at most so many bytes.
const MOST_BYTES: usize = 20;

/// The fault of a line that stands behind what it comes before.
pub(crate) fn late(kind: Kind) -> LineFault
    ensures { result ≡ line.Stand (stand.Late kind) }
{
    LineFault::Stand {
        fault: StandFault::Late { kind },
    }
}

// Whether a line above has an amount.
fn has_amounts(draft: &Draft) -> bool
    ensures { result ≡ has_amounts draft.now }
{
    match draft.change {
        Some(Some(_)) => true,
        _ => 0 < draft.codes.len(),
    }
}

// Reads how many decimals amounts have, where a word says it.
#[tactic(auto, unfolding(crate::specs::MoneyLines::decimals_word))]
fn decimals_word(alloc: Global, word: Option<&[u8]>) -> Result<u8, LineFault>
    ensures { Reads (λ n. n) result (decimals_word (option_copied word.entry)) }
{
    match word {
        Some(word) => Ok(number(alloc, 0, 3, word)? as u8),
        None => Ok(0),
    }
}

// Reads a name of the money and, where a word says it, how many decimals amounts have.
#[tactic(auto, unfolding(crate::specs::MoneyLines::money_words))]
fn money_words(alloc: Global, name: &[u8], decimals: Option<&[u8]>) -> Result<Money, LineFault>
    ensures { Reads (λ m. m) result (money_words name.now (option_copied decimals.entry)) }
{
    let name = short_name(alloc, MOST_BYTES, name)?;
    let decimals = decimals_word(alloc, decimals)?;
    Ok(Money { name, decimals })
}

// Reads one or two words of a money line.
#[tactic(auto, unfolding(crate::specs::MoneyLines::new_money))]
fn new_money(alloc: Global, words: &mut Words<'_>) -> Result<Money, LineFault>
    ensures { Reads (λ m. m) result (new_money words.old) }
{
    let found = count(words);
    let Some(name) = words.next() else {
        return Err(miscounted(found, 1, Some(2)));
    };
    let decimals = words.next();
    if let Some(_) = words.next() {
        return Err(miscounted(found, 1, Some(2)));
    }
    money_words(alloc, name, decimals)
}

/// Reads a money line, behind its first word.
///
/// # Errors
///
/// That such a line stands above, then that amounts do, then the first fault of the words.
#[tactic(auto, unfolding(crate::specs::MoneyLines::money_line))]
pub(crate) fn money_line(
    alloc: Global,
    draft: &mut Draft,
    words: &mut Words<'_>,
) -> Result<(), LineFault>
    ensures { Reads (λ _. (draft.new)) result (money_line draft.old words.old) }
{
    if draft.money.is_some() {
        return Err(second(Kind::Money));
    }
    if has_amounts(draft) {
        return Err(late(Kind::Money));
    }
    draft.money = Some(new_money(alloc, words)?);
    Ok(())
}
