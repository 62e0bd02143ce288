//! A line in place of what would be shown.

ghost use Rattle.std.specs.Prelude.{◌≡◌, ◌≢◌, true, false, Err as Refused, IfOk};
ghost use Rattle.model_rosters.specs.SoundInstance.{IsSoundInstance};
ghost use Rattle.page_labels.specs.LabelsOf.{labels_of};
ghost use Rattle.page_command.specs.Check.{RefusedLabels};
ghost use Rattle.page_command.specs.Report.{LineAnswers, is_report};

use crate::report::is_report;
use check_proofs::Judged;
use check_values::read_roster;
use command_answers::{Answer, proof_refusal};
use command_texts::check::judged;
use command_texts::what_if::value::roster_refusal;
use model_rosters::{Instance, Memory};
use page_labels::{LabelFault, fault_line};
use page_views::copied;
use std::alloc::Global;

// Says a line with status 5.
fn line_said(alloc: Global, line: &[u8]) -> Result<Answer, Memory>
    ensures { IfOk result (λ a. (a.status ≡ 5) × (a.output ≡ line.now)) }
{
    let output = copied(alloc, line)?;
    Ok(Answer { status: 5, output })
}

// Says a line, or the fault of a proof text.
fn line_for_proof(
    alloc: Global,
    instance: &Instance,
    text: &[u8],
    line: &[u8],
) -> Result<Answer, Memory>
    requires sound { IsSoundInstance instance.now }
    requires proof { is_report text.now ≡ false }
    ensures { IfOk result (λ a. LineAnswers instance.now text.now line.now a.status a.output) }
{
    match judged(alloc, instance, text)? {
        Judged::Said(_) => line_said(alloc, line),
        Judged::Fault(fault) => proof_refusal(alloc, fault),
    }
}

// Says a line, or the fault of a report.
fn line_for_report(
    alloc: Global,
    instance: &Instance,
    text: &[u8],
    line: &[u8],
) -> Result<Answer, Memory>
    requires sound { IsSoundInstance instance.now }
    requires report { is_report text.now ≡ true }
    ensures { IfOk result (λ a. LineAnswers instance.now text.now line.now a.status a.output) }
{
    match read_roster(alloc, instance, text) {
        Ok(shifts) => {
            drop(shifts);
            line_said(alloc, line)
        }
        Err(fault) => roster_refusal(alloc, fault),
    }
}

/// Says a line in place of what would be shown, with status 5. A fault of the proof text or the report comes
/// first.
///
/// # Errors
///
/// `Memory` where memory runs out; there is no answer then.
pub(crate) fn line_answer(
    alloc: Global,
    instance: &Instance,
    text: &[u8],
    line: &[u8],
) -> Result<Answer, Memory>
    requires { IsSoundInstance instance.now }
    ensures { IfOk result (λ a. LineAnswers instance.now text.now line.now a.status a.output) }
{
    if is_report(text) {
        line_for_report(alloc, instance, text, line)
    } else {
        line_for_proof(alloc, instance, text, line)
    }
}

/// Says why a labels text is refused. A fault of the proof text or the report comes first.
///
/// # Errors
///
/// `Memory` where memory runs out, or where that is the fault; there is no answer then.
pub(crate) fn refused_labels(
    alloc: Global,
    instance: &Instance,
    text: &[u8],
    labels: &[u8],
    fault: LabelFault,
) -> Result<Answer, Memory>
    requires sound { IsSoundInstance instance.now }
    requires fault { fault ≢ LabelFault.Memory → labels_of instance.now labels.now ≡ Refused fault }
    ensures { IfOk result (λ a. RefusedLabels labels.now instance.now text.now a.status a.output) }
{
    match fault {
        LabelFault::Memory => Err(Memory),
        _ => {
            let line = fault_line(alloc, &fault)?;
            line_answer(alloc, instance, text, line.as_slice())
        }
    }
}
