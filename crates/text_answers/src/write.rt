//! A space and a number.

ghost use Rattle.std.specs.Prelude.{◌≡◌, ◌∷◌, [], ◌++◌, OnOk, pos};
ghost use Rattle.text_lines.specs.Numbers.{number_text};

use model_rosters::{List, Memory};
use text_lines::write_number;

/// Appends a space and a number.
///
/// # Errors
///
/// `Memory` where memory runs out; the space may stand there without the number then.
pub(crate) fn write_field(out: &mut List<u8>, number: u64) -> Result<(), Memory>
    ensures { OnOk result (out.new ≡ out.old ++ 32 ∷ number_text (pos number)) }
{
    out.push(b' ')?;
    write_number(out, i128::from(number))
}
