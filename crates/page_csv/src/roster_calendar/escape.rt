//! Values of text.

ghost use Rattle.std.specs.Prelude.{◌≡◌, ◌++◌, IfOk, OnOk};
ghost use Rattle.page_csv.specs.roster_calendar.Escapes.{escaped, escaped_byte, is_escaped};

use model_rosters::{List, Memory};
use std::alloc::Global;
use text_lines::put;

// Whether a byte stands behind a backslash.
fn is_escaped(byte: u8) -> bool
    ensures { result ≡ is_escaped byte }
{
    byte == b'\\' || byte == b';' || byte == b','
}

// Appends a byte of a value.
#[tactic(auto, unfolding(crate::specs::roster_calendar::Escapes::escaped_byte))]
fn put_escaped(out: &mut List<u8>, byte: u8) -> Result<(), Memory>
    ensures { OnOk result (out.new ≡ out.old ++ escaped_byte byte) }
{
    if byte == b'\n' {
        return put(out, b"\\n");
    }
    if is_escaped(byte) {
        return put(out, &[b'\\', byte]);
    }
    out.push(byte)
}

/// Returns a value as a text of RFC 5545.
///
/// # Errors
///
/// `Memory` where memory runs out; nothing is kept then.
pub(crate) fn escaped(alloc: Global, value: &[u8]) -> Result<List<u8>, Memory>
    ensures { IfOk result (λ text. text ≡ escaped value.now) }
{
    let mut text = List::new(alloc);
    for byte in value {
        put_escaped(&mut text, *byte)?;
    }
    Ok(text)
}
