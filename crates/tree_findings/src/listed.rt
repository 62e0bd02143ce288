//! Findings added to a list.

ghost use Rattle.std.specs.Prelude.{◌≡◌, true, OnOk};
ghost use Rattle.tree_findings.specs.Listed.{Says, Adds};

use crate::finding::Finding;
use model_rosters::{List, Memory};

/// Lists a finding where it holds.
///
/// # Errors
///
/// `Memory` where memory runs out; the list is as before then.
pub(crate) fn add_if(found: &mut List<Finding>, holds: bool, finding: Finding) -> Result<(), Memory>
    ensures { OnOk result (Adds (Says (holds ≡ true) finding) found.old found.new) }
{
    if !holds {
        return Ok(());
    }
    found.push(finding)
}
