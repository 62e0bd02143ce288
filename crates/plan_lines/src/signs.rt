//! What a line holds, and may not.

ghost use Rattle.std.specs.Prelude.{◌≡◌};
ghost use Rattle.plan_lines.specs.Signs.{is_plain, signs_of};

use plan_cells::{CellFault, sign_fault};
use plan_faults::Signs;

/// Returns what a line holds before its comment, and no line may.
#[tactic(auto, unfolding(crate::specs::Signs::signs_of))]
pub(crate) fn signs_of(body: &[u8]) -> Option<Signs>
    ensures { result ≡ signs_of body.now }
{
    match sign_fault(body) {
        None => None,
        Some(CellFault::NoUtf8) => Some(Signs::NoText),
        Some(_) => Some(Signs::Control),
    }
}

/// Whether a line holds printable ASCII and tabs alone.
pub(crate) fn is_plain(body: &[u8]) -> bool
    ensures { result ≡ is_plain body.now }
{
    body.iter().all(|b| (32 <= *b && *b <= 126) || *b == b'\t')
}
