//! A certificate judged as `check` does, or a report.

ghost use Rattle.std.specs.Prelude.{◌≡◌, IfOk, IfSome};
ghost use Rattle.std.specs.Option.{option_copied};
ghost use Rattle.model_rosters.specs.SoundInstance.{IsSoundInstance};
ghost use Rattle.text_answers.specs.VerdictText.{verdict_text};
ghost use Rattle.command_answers.specs.Asked.{ProofAnswers};
ghost use Rattle.page_views.specs.Draw.{IsOldRoster};
ghost use Rattle.page_command.specs.Judgement.{Judgement};
ghost use Rattle.page_command.specs.Report.{RosterAnswers};

use crate::accepted::accepted_answer;
use crate::report::{is_report, report_answer};
use check_certificates::{Verdict, Why};
use check_proofs::Judged;
use command_answers::{Answer, proof_refusal};
use command_texts::check::{judged, verdict_answer};
use model_rosters::{Instance, Memory, Shift};
use page_labels::Labels;
use page_views::Kind;
use std::alloc::Global;

// Says why a certificate is refused.
fn no_answer(alloc: Global, why: Why) -> Result<Answer, Memory>
    ensures { IfOk result (λ a. (a.status ≡ 1) × (a.output ≡ verdict_text (Verdict.No why))) }
{
    verdict_answer(alloc, &Verdict::No(why))
}

// What is answered to a proof text under labels, beside an old roster where there is one.
fn proof_answer(
    alloc: Global,
    kind: Kind,
    instance: &Instance,
    labels: &Labels,
    old: Option<&[Shift]>,
    text: &[u8],
) -> Result<Answer, Memory>
    requires sound { IsSoundInstance instance.now }
    requires old { IfSome (option_copied old) (IsOldRoster instance.now) }
    ensures { IfOk result (λ a. ProofAnswers (Judgement kind labels.now (option_copied old.entry))
        instance.now
        text.now a.status a.output) }
{
    match judged(alloc, instance, text)? {
        Judged::Said(Verdict::Yes { .. }) => {
            accepted_answer(alloc, kind, instance, labels, old, text)
        }
        Judged::Said(Verdict::No(why)) => no_answer(alloc, why),
        Judged::Fault(fault) => proof_refusal(alloc, fault),
    }
}

/// What is answered to a proof text, or to a report in its place, under labels, beside an old roster where
/// there is one.
///
/// # Errors
///
/// `Memory` where memory runs out; there is no answer then.
pub(crate) fn judgement(
    alloc: Global,
    kind: Kind,
    instance: &Instance,
    labels: &Labels,
    old: Option<&[Shift]>,
    text: &[u8],
) -> Result<Answer, Memory>
    requires sound { IsSoundInstance instance.now }
    requires old { IfSome (option_copied old) (IsOldRoster instance.now) }
    ensures { IfOk result (λ a. RosterAnswers kind labels.now (option_copied old.entry) instance.now text.now
        a.status a.output) }
{
    if is_report(text) {
        report_answer(alloc, kind, instance, labels, old, text)
    } else {
        proof_answer(alloc, kind, instance, labels, old, text)
    }
}
