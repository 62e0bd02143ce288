//! Amounts, and what they are counted in.

ghost use Rattle.std.specs.Prelude.{◌≡◌, ◌++◌, ◌∷◌, [], OnOk, length};
ghost use Rattle.page_parts.specs.Amounts.{amount, unit_behind};
ghost use Rattle.page_parts.specs.Elements as page;
ghost use Rattle.page_parts.specs.Elements.{written};

use crate::decimals::units;
use crate::element::marks;
use crate::label::labelled_text;
use model_rosters::{List, Memory};

/// What amounts of money are counted in.
#[derive(Debug, PartialEq, Eq, Drop)]
pub struct Money {
    /// The words behind an amount, at most 60 bytes, or nothing.
    pub words: List<u8>,
    /// How many decimals an amount has: a unit of a text is 10 to the power of minus so many.
    pub decimals: u8,
}

/// Appends what amounts are counted in, escaped, behind a space, where it is said.
///
/// # Errors
///
/// `Memory` where memory runs out; a part of it may stand there then.
#[tactic(auto, unfolding(crate::specs::Amounts::unit_behind))]
pub fn unit_behind(out: &mut List<u8>, words: &[u8]) -> Result<(), Memory>
    ensures { OnOk result (out.new ≡ out.old ++ written (unit_behind words.now)) }
{
    if words.len() > 0 {
        labelled_text(out, b" ", words)?;
    }
    Ok(())
}

/// Appends an amount, with what it is counted in, where that is said.
///
/// # Errors
///
/// `Memory` where memory runs out; a part of it may stand there then.
pub fn amount(out: &mut List<u8>, money: &Money, value: u64) -> Result<(), Memory>
    ensures { OnOk result (out.new ≡ out.old ++ written (amount money.now value)) }
{
    units(out, money.decimals, value)?;
    unit_behind(out, money.words.as_slice())
}

/// Appends marks, and an amount behind them.
///
/// # Errors
///
/// `Memory` where memory runs out; a part of them may stand there then.
pub fn labelled_amount(
    out: &mut List<u8>,
    label: &[u8],
    money: &Money,
    value: u64,
) -> Result<(), Memory>
    ensures { OnOk result
        (out.new ≡ out.old ++ written (page.marks label.now ∷ amount money.now value)) }
{
    marks(out, label)?;
    amount(out, money, value)
}
