//! What is noted of an old text with which a search begins.

ghost use Rattle.std.specs.Prelude.{◌≡◌};
ghost use Rattle.model_rosters.specs.SoundInstance.{IsSoundInstance};

use command_shelf::Shelf;
use model_rosters::Instance;
use std::alloc::Global;
use text_fault_notes::proof_note;
use text_old_notes::old_note;
use text_old_shifts::read_shifts;
use text_proof_pieces::ProofFault;

/// What notes on an old text begin with.
const NAME: &str = "proof";

// Returns how many lines of an old text's shifts are passed over, where any are.
fn passed_text(alloc: Global, instance: &Instance, text: &[u8]) -> Option<String>
    requires { IsSoundInstance instance.now }
{
    let said = read_shifts(alloc, instance, text).ok()?;
    let passed = said.passed as usize;
    if passed == 0 {
        return None;
    }
    let all = said.shifts.len().saturating_add(passed);
    format!(in alloc;
        "{NAME}: {passed} of {all} shifts passed over, which have no name of a group of the demand"
    ).ok()
}

/// Notes how many lines of an old text's shifts are passed over, where any are.
pub(crate) fn note_passed<S: Shelf>(alloc: Global, shelf: &mut S, instance: &Instance, text: &[u8])
    requires { IsSoundInstance instance.now }
    ensures { S.told shelf.new ≡ S.told shelf.old }
{
    match passed_text(alloc, instance, text) {
        Some(text) => shelf.note(text.as_str()),
        None => {}
    }
}

/// Returns what is noted of an old text that is refused, for this fault as a proof text of the day.
pub(crate) fn from_note(
    alloc: Global,
    instance: &Instance,
    text: &[u8],
    fault: ProofFault,
) -> Option<String>
    requires { IsSoundInstance instance.now }
{
    let note = match read_shifts(alloc, instance, text) {
        Ok(_) => None,
        Err(fault) => old_note(alloc, NAME, instance, text, fault),
    };
    match note {
        Some(note) => Some(note),
        None => proof_note(alloc, text, instance, fault),
    }
}
