//! Lines of two and of three words.

ghost use Rattle.std.specs.Prelude.{◌≡◌, ◌++◌, [], ◌∷◌, OnOk};
ghost use Rattle.text_lines.specs.Written.{written};

use model_rosters::{List, Memory};
use text_lines::{put, word};

/// Appends a line of a word and what stands behind it.
///
/// # Errors
///
/// `Memory` where memory runs out; a part may stand in `out` then.
pub(crate) fn two_words(out: &mut List<u8>, first: &[u8], second: &[u8]) -> Result<(), Memory>
    ensures { OnOk result (out.new ≡ out.old ++ written ((first.now ∷ second.now ∷ []) ∷ [])) }
{
    put(out, first)?;
    word(out, second)?;
    out.push(b'\n')
}

/// Appends a line of two words and what stands behind them.
///
/// # Errors
///
/// `Memory` where memory runs out; a part may stand in `out` then.
pub(crate) fn three_words(
    out: &mut List<u8>,
    first: &[u8],
    second: &[u8],
    third: &[u8],
) -> Result<(), Memory>
    ensures { OnOk result (out.new ≡ out.old ++ written ((first.now ∷ second.now ∷ third.now ∷ []) ∷ [])) }
{
    put(out, first)?;
    word(out, second)?;
    word(out, third)?;
    out.push(b'\n')
}
