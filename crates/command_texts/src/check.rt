//! Whether a certificate is accepted.

ghost use Rattle.std.specs.Prelude.{◌≡◌, ◌≤◌, [], ◌∷◌, IfOk, length};
ghost use Rattle.model_rosters.specs.SoundInstance.{IsSoundInstance};
ghost use Rattle.text_proof_pieces.specs.CertOf.{proof_fault};
ghost use Rattle.check_proofs.specs.Judging.{IsJudged};
ghost use Rattle.text_answers.specs.VerdictText.{verdict_text};
ghost use Rattle.command_texts.specs.Check.{Judgement, verdict_status};
ghost use Rattle.command_answers.specs.Asked.{ProofAnswers};
ghost use Rattle.command_answers.specs.Reader.{IsReader};
ghost use Rattle.command_answers.specs.Says.{CertCommand};

use check_certificates::Verdict;
use check_proofs::{Bench, Judged};
use command_answers::{Answer, MOST_PROOF, Question, ask, proof_refusal};
use command_shelf::Shelf;
use model_rosters::{Instance, Memory};
use std::alloc::Global;
use text_answers::write_verdict;
use text_certificates::read_cert;
use text_fault_notes::proof_note;
use text_proof_pieces::CertRoom;

// Returns the status of a verdict: 0 for a yes, and 1 for a no.
fn status_of_verdict(verdict: &Verdict) -> u8
    ensures { result ≡ verdict_status verdict.now }
{
    match verdict {
        Verdict::Yes { .. } => 0,
        Verdict::No(_) => 1,
    }
}

/// Says a verdict.
///
/// # Errors
///
/// `Memory` where memory runs out; there is no answer then.
pub fn verdict_answer(alloc: Global, verdict: &Verdict) -> Result<Answer, Memory>
    ensures { IfOk result (λ a. (a.status ≡ verdict_status verdict.now)
        × (a.output ≡ verdict_text verdict.now)) }
{
    Ok(Answer {
        status: status_of_verdict(verdict),
        output: write_verdict(alloc, verdict)?,
    })
}

// Judges a proof text in the room for its pieces. No list of its nodes is held.
fn judged_in(
    alloc: Global,
    instance: &Instance,
    text: &[u8],
    room: &mut CertRoom,
) -> Result<Judged, Memory>
    requires sound { IsSoundInstance instance.now }
    requires made { length instance.now.cells ≤ room.old.most }
    ensures { IfOk result (IsJudged instance.now text.now) }
{
    let mut bench = Bench::for_texts(alloc, instance)?;
    Ok(bench.judge_text(instance, text, room))
}

/// Judges a proof text.
///
/// # Errors
///
/// `Memory` where memory runs out; there is no answer then.
pub fn judged(alloc: Global, instance: &Instance, text: &[u8]) -> Result<Judged, Memory>
    requires { IsSoundInstance instance.now }
    ensures { IfOk result (IsJudged instance.now text.now) }
{
    let mut room = CertRoom::for_instance(alloc, instance)?;
    judged_in(alloc, instance, text, &mut room)
}

// Says whether the certificate of a proof text is accepted, or why the text or the certificate is refused.
fn judgement(alloc: Global, instance: &Instance, text: &[u8]) -> Result<Answer, Memory>
    requires { IsSoundInstance instance.now }
    ensures { IfOk result (λ a. ProofAnswers Judgement instance.now text.now a.status a.output) }
{
    match judged(alloc, instance, text)? {
        Judged::Said(verdict) => verdict_answer(alloc, &verdict),
        Judged::Fault(fault) => proof_refusal(alloc, fault),
    }
}

/// Returns what is noted of a proof text to which an answer has this status: where it refuses the text, with
/// 5, what stands there and what is wanted.
pub fn proof_remark(alloc: Global, instance: &Instance, text: &[u8], status: u8) -> Option<String>
    requires { IsSoundInstance instance.now }
{
    if status != 5 {
        return None;
    }
    match read_cert(alloc, instance, text) {
        Ok(_) => None,
        Err(fault) => proof_note(alloc, text, instance, fault),
    }
}

// Whether a certificate is accepted.
struct Acceptance;

impl Question for Acceptance {
    ghost use Rattle.command_texts.specs.Check.{Judgement};
    ghost use Rattle.command_answers.specs.Asked.{ProofAnswers};
    ghost use Rattle.command_texts.specs.Statuses.{judged-ends};
    ghost use Rattle.command_answers.specs.Statuses.{proof-ends};
    ghost use Rattle.command_answers.specs.ProofFronts.{proof-fronts};

    ghost answers = { λ _. ProofAnswers Judgement };

    ghost limit = { λ _. 1073741824 };

    ghost ends = { λ _. proof-ends Judgement judged-ends };

    ghost fronts = { λ _. proof-fronts Judgement };

    // A proof text has at most so many bytes.
    fn most(&self) -> usize {
        MOST_PROOF
    }

    // Says whether the certificate of a proof text is accepted.
    fn answer(&self, alloc: Global, instance: &Instance, text: &[u8]) -> Result<Answer, Memory> {
        judgement(alloc, instance, text)
    }

    // Tells what is wrong with a text that is refused.
    fn remark(
        &self,
        alloc: Global,
        instance: &Instance,
        text: &[u8],
        status: u8,
    ) -> Option<String> {
        proof_remark(alloc, instance, text, status)
    }
}

/// Says whether a certificate is accepted, by the rules, demand and proof texts under names, or why a text or
/// the certificate is refused. The texts are fetched and read in this order.
pub fn check<S: Shelf>(alloc: Global, shelf: &mut S, rules: &str, demand: &str, proof: &str) -> u8
    ensures { IsReader (CertCommand Judgement (S.told shelf.old).held rules.now demand.now proof.now)
        (rules.now ∷ demand.now ∷ proof.now ∷ []) (S.told shelf.old) (S.told shelf.new) result }
{
    ask(alloc, shelf, rules, demand, proof, &Acceptance)
}
