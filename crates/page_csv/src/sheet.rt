//! The mark of a text that is not all ASCII.

ghost use Rattle.std.specs.Prelude.{◌≡◌, IfOk, nat_lt};
ghost use Rattle.std.specs.List.{list_any};
ghost use Rattle.page_csv.specs.Sheets.{is_beyond, marked};

use model_rosters::{List, Memory};
use std::alloc::Global;
use text_lines::put;

/// The byte order mark of UTF-8.
const MARK: &[u8] = b"\xef\xbb\xbf";

// Whether a text has a byte that is no ASCII.
fn is_beyond(text: &[u8]) -> bool
    ensures { result ≡ list_any is_beyond text.now }
{
    text.iter().any(|byte| 127 < *byte)
}

/// Returns a text of records, behind a byte order mark where it is not all ASCII.
///
/// # Errors
///
/// `Memory` where memory runs out; nothing is kept then.
#[tactic(auto, unfolding(crate::specs::Sheets::marked))]
pub(crate) fn marked(alloc: Global, text: List<u8>) -> Result<List<u8>, Memory>
    ensures { IfOk result (λ out. out ≡ marked text) }
{
    if !is_beyond(text.as_slice()) {
        return Ok(text);
    }
    let mut out = List::new(alloc);
    put(&mut out, MARK)?;
    put(&mut out, text.as_slice())?;
    Ok(out)
}
