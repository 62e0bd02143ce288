//! Groups of employees.

ghost use Rattle.std.specs.Prelude.{◌≡◌, ◌++◌, [], ◌∷◌, OnOk};
ghost use Rattle.text_lines.specs.Written.{written};
ghost use Rattle.plan_labels.specs.LabelText.{all_group_lines, group_lines, named_lines};

use crate::line::three_words;
use model_rosters::{List, Memory};
use plan_meaning::Staff;

// Appends what the employees of a duty name are called, where it is said.
#[tactic(auto, unfolding(crate::specs::LabelText::named_lines))]
fn named_line(out: &mut List<u8>, name: &[u8], words: &[u8]) -> Result<(), Memory>
    ensures { OnOk result (out.new ≡ out.old ++ written (named_lines name.now words.now)) }
{
    if words.len() == 0 {
        return Ok(());
    }
    three_words(out, b"group", name, words)
}

// Appends what the employees of a staff line are called, where it says so.
#[tactic(auto, unfolding(crate::specs::LabelText::group_lines))]
fn group_line(out: &mut List<u8>, staff: &Staff) -> Result<(), Memory>
    ensures { OnOk result (out.new ≡ out.old ++ written (group_lines staff.now)) }
{
    match &staff.name {
        Some(name) => named_line(out, name.as_slice(), staff.words.as_slice()),
        None => Ok(()),
    }
}

/// Appends what employees are called, where staff lines say it.
///
/// # Errors
///
/// `Memory` where memory runs out; a part may stand in `out` then.
pub(crate) fn group_lines(out: &mut List<u8>, staff: &[Staff]) -> Result<(), Memory>
    ensures { OnOk result (out.new ≡ out.old ++ written (all_group_lines staff.now)) }
{
    for line in staff {
        group_line(out, line)?;
    }
    Ok(())
}
