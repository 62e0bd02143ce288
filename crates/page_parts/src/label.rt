//! Marks, and a number or bytes behind them.

ghost use Rattle.std.specs.Prelude.{◌≡◌, ◌++◌, ◌∷◌, [], OnOk};
ghost use Rattle.page_parts.specs.Elements as page;
ghost use Rattle.page_parts.specs.Elements.{written};

use crate::element::{given, marks, number};
use model_rosters::{List, Memory};

/// Appends marks, and a number behind them.
///
/// # Errors
///
/// `Memory` where memory runs out; a part of them may stand there then.
pub fn labelled(out: &mut List<u8>, label: &[u8], value: u64) -> Result<(), Memory>
    ensures { OnOk result
        (out.new ≡ out.old ++ written (page.marks label.now ∷ page.number value ∷ [])) }
{
    marks(out, label)?;
    number(out, value)
}

/// Appends marks, and bytes of the texts behind them, each escaped.
///
/// # Errors
///
/// `Memory` where memory runs out; a part of them may stand there then.
pub fn labelled_text(out: &mut List<u8>, label: &[u8], text: &[u8]) -> Result<(), Memory>
    ensures { OnOk result
        (out.new ≡ out.old ++ written (page.marks label.now ∷ page.given text.now ∷ [])) }
{
    marks(out, label)?;
    given(out, text)
}
