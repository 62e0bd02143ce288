//! The answer's status and text.

ghost use Rattle.std.specs.Prelude.{◌≡◌, ◌≤◌, ◌++◌, IfOk, length};
ghost use Rattle.text_lines.specs.Written.{written};
ghost use Rattle.model_rosters.specs.SoundInstance.{IsSoundInstance};
ghost use Rattle.text_reports.specs.Reports.{HasSoundShifts};
ghost use Rattle.check_values.specs.Answers.{StatedAnswer};
ghost use Rattle.check_values.specs.CauseText.{causes_text};
ghost use Rattle.check_values.specs.ValueText.{covered_lines};
ghost use Rattle.check_values.specs.Values.{AreCauses, IsValued};

use crate::cause::Cause;
use crate::cause_text::cause_lines;
use crate::covered::covered_lines;
use crate::judging::{Judged, judge};
use crate::value_text::value_text;
use crate::valued::Valued;
use model_rosters::{Instance, List, Memory, Shift};
use std::alloc::Global;

/// What is answered to a stated roster.
#[derive(Drop)]
pub struct Answer {
    /// 0 where the roster is allowed, and else 1.
    pub status: u8,
    /// The text of the answer.
    pub output: List<u8>,
}

// Returns the text of a roster's causes, and of how it covers the cells.
fn causes_output(
    alloc: Global,
    instance: &Instance,
    shifts: &[Shift],
    causes: &[Cause],
) -> Result<List<u8>, Memory>
    requires sound { IsSoundInstance instance.now }
    requires few { length shifts.now ≤ 64 }
    ensures { IfOk result (λ text. text ≡ causes_text instance.now shifts.now causes.now
        ++ written (covered_lines instance.now shifts.now)) }
{
    let mut out = List::new(alloc);
    cause_lines(&mut out, instance, shifts, causes)?;
    covered_lines(alloc, &mut out, instance, shifts)?;
    Ok(out)
}

// Says what an allowed roster costs.
fn value_answer(
    alloc: Global,
    instance: &Instance,
    shifts: &[Shift],
    value: &Valued,
) -> Result<Answer, Memory>
    requires sound { IsSoundInstance instance.now }
    requires value { IsValued instance.now shifts.now value.now }
    ensures { IfOk result (λ a. StatedAnswer instance.now shifts.now a.status a.output) }
{
    Ok(Answer {
        status: 0,
        output: value_text(alloc, instance, value)?,
    })
}

// Says why a roster is not allowed.
fn causes_answer(
    alloc: Global,
    instance: &Instance,
    shifts: &[Shift],
    causes: &[Cause],
) -> Result<Answer, Memory>
    requires sound { IsSoundInstance instance.now }
    requires shifts { HasSoundShifts instance.now shifts.now }
    requires causes { AreCauses instance.now shifts.now causes.now }
    ensures { IfOk result (λ a. StatedAnswer instance.now shifts.now a.status a.output) }
{
    Ok(Answer {
        status: 1,
        output: causes_output(alloc, instance, shifts, causes)?,
    })
}

/// Answers for a roster that was stated, at most 64 sound shifts whose prices do not matter: with status 0
/// what it costs, as the lines of a report without those of a search, where it is allowed; with status 1 a
/// line for each cause for which it is not, and then the lines that say how it covers each demanded code.
///
/// # Errors
///
/// `Memory` where memory runs out.
pub fn stated_answer(alloc: Global, instance: &Instance, shifts: &[Shift]) -> Result<Answer, Memory>
    requires sound { IsSoundInstance instance.now }
    requires shifts { HasSoundShifts instance.now shifts.now }
    ensures { IfOk result (λ a. StatedAnswer instance.now shifts.now a.status a.output) }
{
    match judge(alloc, instance, shifts)? {
        Judged::Allowed(value) => value_answer(alloc, instance, shifts, &value),
        Judged::Refused(causes) => causes_answer(alloc, instance, shifts, causes.as_slice()),
    }
}
