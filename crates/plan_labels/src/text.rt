//! The whole text.

ghost use Rattle.std.specs.Prelude.{◌≡◌, IfOk};
ghost use Rattle.plan_labels.specs.LabelText.{labels_text};

use crate::codes::code_lines;
use crate::day::day_lines;
use crate::money::money_lines;
use crate::staff::group_lines;
use model_rosters::{List, Memory};
use plan_meaning::Plan;
use std::alloc::Global;

/// Writes the labels text of a plan.
///
/// # Errors
///
/// `Memory` where memory runs out; there is no text then.
pub fn labels_text(alloc: Global, plan: &Plan) -> Result<List<u8>, Memory>
    ensures { IfOk result (λ text. text ≡ labels_text plan.now) }
{
    let mut out = List::new(alloc);
    day_lines(&mut out, plan)?;
    code_lines(&mut out, plan)?;
    group_lines(&mut out, plan.staff.as_slice())?;
    money_lines(&mut out, &plan.money)?;
    Ok(out)
}
