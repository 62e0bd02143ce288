//! What a roster comes to.

ghost use Rattle.std.specs.Prelude.{◌≡◌, IfOk};
ghost use Rattle.model_rosters.specs.SoundInstance.{IsSoundInstance};
ghost use Rattle.text_reports.specs.Reports.{HasSoundShifts};
ghost use Rattle.check_values.specs.Causes.{AreFound};
ghost use Rattle.check_values.specs.Values.{IsJudged};

use crate::cause::Cause;
use crate::causes::causes_of;
use crate::found::found_of;
use crate::valued::{Valued, value_of};
use model_rosters::{Instance, List, Memory, Shift};
use std::alloc::Global;

/// What a stated roster comes to.
#[derive(Debug, PartialEq, Eq, Drop)]
pub enum Judged {
    /// It is allowed, and costs this much.
    Allowed(Valued),
    /// It is not allowed, for all these causes: those of the shifts, of the teams and of the cells.
    Refused(List<Cause>),
}

// Returns what a roster comes to, where these are the prices of its words.
fn judge_at(
    alloc: Global,
    instance: &Instance,
    shifts: &[Shift],
    found: &[Option<u64>],
) -> Result<Judged, Memory>
    requires sound { IsSoundInstance instance.now }
    requires shifts { HasSoundShifts instance.now shifts.now }
    requires found { AreFound instance.now shifts.now found.now }
    ensures { IfOk result (IsJudged instance.now shifts.now) }
{
    let causes = causes_of(alloc, instance, shifts, found)?;
    if !causes.is_empty() {
        return Ok(Judged::Refused(causes));
    }
    let value = value_of(alloc, instance, shifts, found)?;
    Ok(Judged::Allowed(value))
}

/// Returns what a stated roster comes to: what it costs at the least price of each word, or all causes for
/// which it is not allowed. What the shifts state as prices does not matter.
///
/// # Errors
///
/// `Memory` where memory runs out.
pub fn judge(alloc: Global, instance: &Instance, shifts: &[Shift]) -> Result<Judged, Memory>
    requires sound { IsSoundInstance instance.now }
    requires shifts { HasSoundShifts instance.now shifts.now }
    ensures { IfOk result (IsJudged instance.now shifts.now) }
{
    let found = found_of(alloc, instance, shifts)?;
    judge_at(alloc, instance, shifts, found.as_slice())
}
