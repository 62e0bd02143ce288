//! The money.

ghost use Rattle.std.specs.Prelude.{◌≡◌, ◌++◌, [], ◌∷◌, OnOk};
ghost use Rattle.text_lines.specs.Written.{written};
ghost use Rattle.plan_labels.specs.LabelText.{decimals_lines, money_lines};

use crate::line::two_words;
use model_rosters::{List, Memory};
use plan_meaning::Money;
use text_lines::{field, put};

// Appends how many decimals amounts have, where they have some.
#[tactic(auto, unfolding(crate::specs::LabelText::decimals_lines))]
fn decimals_line(out: &mut List<u8>, decimals: u8) -> Result<(), Memory>
    ensures { OnOk result (out.new ≡ out.old ++ written (decimals_lines decimals)) }
{
    if decimals == 0 {
        return Ok(());
    }
    put(out, b"decimals")?;
    field(out, decimals as u64)?;
    out.push(b'\n')
}

/// Appends what amounts are counted in, where it is said.
///
/// # Errors
///
/// `Memory` where memory runs out; a part may stand in `out` then.
#[tactic(auto, unfolding(crate::specs::LabelText::money_lines))]
pub(crate) fn money_lines(out: &mut List<u8>, money: &Option<Money>) -> Result<(), Memory>
    ensures { OnOk result (out.new ≡ out.old ++ written (money_lines money.now)) }
{
    let Some(money) = money else {
        return Ok(());
    };
    two_words(out, b"money", money.name.as_slice())?;
    decimals_line(out, money.decimals)
}
