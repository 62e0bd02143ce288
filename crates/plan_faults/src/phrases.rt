//! Words that are the same in each fault of a kind.

ghost use Rattle.std.specs.Prelude.{◌≡◌, ◌++◌, OnOk};
ghost use Rattle.plan_faults.specs.Phrases.{said};

use model_rosters::{List, Memory};
use text_lines::put;

/// Appends fixed words of what is said.
///
/// # Errors
///
/// `Memory` where memory runs out.
#[tactic(auto, unfolding(crate::specs::Phrases::said))]
pub fn say(out: &mut List<u8>, bytes: &[u8]) -> Result<(), Memory>
    ensures { OnOk result (out.new ≡ out.old ++ said bytes.now) }
{
    put(out, bytes)
}
