//! A report judged as `value` does.

ghost use Rattle.std.specs.Prelude.{◌≡◌, IfOk, IfSome};
ghost use Rattle.std.specs.Option.{option_copied};
ghost use Rattle.model_rosters.specs.SoundInstance.{IsSoundInstance};
ghost use Rattle.check_values.specs.stated_rosters.RosterOf.{IsSoundRoster};
ghost use Rattle.page_views.specs.Draw.{IsOldRoster};
ghost use Rattle.page_command.specs.Judgement.{StatedJudgement};
ghost use Rattle.page_command.specs.Report.{ReportAnswers, is_report};

use crate::accepted::shown_answer;
use check_values::{Judged, begins_report, judge, read_roster};
use command_answers::Answer;
use command_texts::what_if::value::{roster_refusal, value_of};
use model_rosters::{Instance, Memory, Shift};
use page_labels::Labels;
use page_views::{Kind, stated};
use std::alloc::Global;

/// A proof text has at most so many bytes.
const MOST_BYTES: usize = 1_073_741_824;

/// Whether a text is a report, and no proof text.
#[tactic(auto, unfolding(crate::specs::Report::is_report))]
pub(crate) fn is_report(text: &[u8]) -> bool
    ensures { result ≡ is_report text.now }
{
    text.len() <= MOST_BYTES && begins_report(text)
}

// Says what shows a stated roster, or why it is not allowed.
fn stated_answer(
    alloc: Global,
    kind: Kind,
    instance: &Instance,
    labels: &Labels,
    old: Option<&[Shift]>,
    shifts: &[Shift],
) -> Result<Answer, Memory>
    requires sound { IsSoundInstance instance.now }
    requires old { IfSome (option_copied old) (IsOldRoster instance.now) }
    requires shifts { IsSoundRoster instance.now shifts.now }
    ensures { IfOk result (λ a. StatedJudgement kind labels.now (option_copied old.entry) instance.now
        shifts.now a.status a.output) }
{
    match judge(alloc, instance, shifts)? {
        Judged::Allowed(value) => {
            let roster = stated(value);
            shown_answer(alloc, kind, instance, labels, &roster, old)
        }
        Judged::Refused(_) => value_of(alloc, instance, shifts),
    }
}

/// What is answered to a report under labels, beside an old roster where there is one.
///
/// # Errors
///
/// `Memory` where memory runs out; there is no answer then.
pub(crate) fn report_answer(
    alloc: Global,
    kind: Kind,
    instance: &Instance,
    labels: &Labels,
    old: Option<&[Shift]>,
    text: &[u8],
) -> Result<Answer, Memory>
    requires sound { IsSoundInstance instance.now }
    requires old { IfSome (option_copied old) (IsOldRoster instance.now) }
    ensures { IfOk result (λ a. ReportAnswers kind labels.now (option_copied old.entry) instance.now text.now
        a.status a.output) }
{
    match read_roster(alloc, instance, text) {
        Ok(shifts) => stated_answer(alloc, kind, instance, labels, old, shifts.as_slice()),
        Err(fault) => roster_refusal(alloc, fault),
    }
}
