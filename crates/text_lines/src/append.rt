//! Words and numbers, appended.

ghost use Rattle.std.specs.Prelude.{◌≡◌, ◌++◌, [], ◌∷◌, OnOk, OnErr};
ghost use Rattle.std.specs.Fmt.{decimal};
ghost use Rattle.text_lines.specs.Numbers.{number_text};
ghost use Rattle.text_lines.specs.Places.{place_text};
ghost use Rattle.text_lines.specs.Written.{tail};

use crate::number::write_number;
use model_rosters::{List, Memory};

/// Appends bytes.
///
/// # Errors
///
/// `Memory` where memory runs out; `out` is as it was before then.
pub fn put(out: &mut List<u8>, bytes: &[u8]) -> Result<(), Memory>
    ensures ok { OnOk result (out.new ≡ out.old ++ bytes.now) }
    ensures err { OnErr result (out.new ≡ out.old) }
{
    out.extend_from_slice(bytes)
}

/// Appends a word behind a space.
///
/// # Errors
///
/// `Memory` where memory runs out; the space may stand there without the word then.
pub fn word(out: &mut List<u8>, bytes: &[u8]) -> Result<(), Memory>
    ensures { OnOk result (out.new ≡ out.old ++ tail (bytes.now ∷ [])) }
{
    out.push(b' ')?;
    put(out, bytes)?;
    Ok(())
}

/// Appends a number behind a space.
///
/// # Errors
///
/// `Memory` where memory runs out; the space may stand there without the number then.
pub fn field(out: &mut List<u8>, value: u64) -> Result<(), Memory>
    ensures { OnOk result (out.new ≡ out.old ++ tail (decimal value ∷ [])) }
{
    out.push(b' ')?;
    write_number(out, value as i128)?;
    Ok(())
}

/// Appends a number, which may be below 0, behind a space.
///
/// # Errors
///
/// `Memory` where memory runs out; the space may stand there without the number then.
pub fn signed_field(out: &mut List<u8>, value: &i128) -> Result<(), Memory>
    ensures { OnOk result (out.new ≡ out.old ++ tail (number_text value.now ∷ [])) }
{
    out.push(b' ')?;
    write_number(out, *value)?;
    Ok(())
}

/// Appends the line that a fault carries, from 1, as `line 3: `, or nothing.
///
/// # Errors
///
/// `Memory` where memory runs out; a part of it may stand there then.
pub fn put_place(out: &mut List<u8>, line: Option<u32>) -> Result<(), Memory>
    ensures { OnOk result (out.new ≡ out.old ++ place_text line) }
{
    let Some(line) = line else {
        return Ok(());
    };
    put(out, b"line ")?;
    write_number(out, line as i128)?;
    put(out, b": ")
}
