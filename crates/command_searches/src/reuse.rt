//! An old certificate on another day.

ghost use Rattle.std.specs.Prelude.{◌≡◌, ◌≢◌, [], ◌∷◌, IfOk};
ghost use Rattle.model_rosters.specs.SoundInstance.{IsSoundInstance};
ghost use Rattle.check_certificates.specs.Sound.{IsSoundCert};
ghost use Rattle.text_proof_pieces.specs.FaultLine as proof_line;
ghost use Rattle.command_answers.specs.Asked.{ProofAnswers};
ghost use Rattle.command_searches.specs.Reuse.{Reusing, reused_status};
ghost use Rattle.command_answers.specs.Reader.{IsReader};
ghost use Rattle.command_answers.specs.Says.{CertCommand};

use check_certificates::Cert;
use check_reuse::{Reused, write_reused};
use command_answers::{Answer, MOST_PROOF, Question, ask};
use command_shelf::Shelf;
use command_texts::check::proof_remark;
use model_rosters::{Instance, Memory};
use std::alloc::Global;
use text_certificates::read_cert;
use text_proof_pieces::ProofFault;

/// Says why a proof text is refused.
///
/// # Errors
///
/// `Memory` where memory runs out, or where that is the fault; there is no answer then.
pub(crate) fn text_refusal(alloc: Global, fault: ProofFault) -> Result<Answer, Memory>
    ensures { IfOk result (λ a. (fault ≢ ProofFault.Memory) × (a.status ≡ 5)
        × (a.output ≡ proof_line.fault_line fault)) }
{
    match fault {
        ProofFault::Memory => Err(Memory),
        _ => Ok(Answer {
            status: 5,
            output: text_proof_pieces::fault_line(alloc, &fault)?,
        }),
    }
}

// Returns the status of what old nodes show: 0 for a bound, and 1 for a refusal.
fn status_of_reused(reused: &Reused) -> u8
    ensures { result ≡ reused_status reused.now }
{
    match reused {
        Reused::Bound(_) => 0,
        Reused::Refused(_) => 1,
    }
}

// Says what the nodes of a certificate show.
fn reused(alloc: Global, instance: &Instance, cert: Cert) -> Result<Answer, Memory>
    requires sound { IsSoundInstance instance.now }
    requires cert { IsSoundCert instance.now cert }
    ensures { IfOk result (λ a. Reusing instance.now cert a.status a.output) }
{
    let reused = check_reuse::reuse(alloc, instance, cert)?;
    Ok(Answer {
        status: status_of_reused(&reused),
        output: write_reused(alloc, &reused)?,
    })
}

// Says what the nodes of the certificate of a proof text show on a day that it need not have been found for,
// or why the text or the nodes are refused.
fn reusing(alloc: Global, instance: &Instance, text: &[u8]) -> Result<Answer, Memory>
    requires { IsSoundInstance instance.now }
    ensures { IfOk result (λ a. ProofAnswers Reusing instance.now text.now a.status a.output) }
{
    match read_cert(alloc, instance, text) {
        Ok(cert) => reused(alloc, instance, cert),
        Err(fault) => text_refusal(alloc, fault),
    }
}

// What the nodes of a certificate show on the day, which it need not have been found for.
struct OldNodes;

impl Question for OldNodes {
    ghost use Rattle.command_searches.specs.Reuse.{Reusing};
    ghost use Rattle.command_searches.specs.Statuses.{reused-ends};
    ghost use Rattle.command_answers.specs.Asked.{ProofAnswers};
    ghost use Rattle.command_answers.specs.Statuses.{proof-ends};
    ghost use Rattle.command_answers.specs.ProofFronts.{proof-fronts};

    ghost answers = { λ _. ProofAnswers Reusing };

    ghost limit = { λ _. 1073741824 };

    ghost ends = { λ _. proof-ends Reusing reused-ends };

    ghost fronts = { λ _. proof-fronts Reusing };

    // A proof text has at most so many bytes.
    fn most(&self) -> usize {
        MOST_PROOF
    }

    // Says what the nodes of the certificate of a proof text show.
    fn answer(&self, alloc: Global, instance: &Instance, text: &[u8]) -> Result<Answer, Memory> {
        reusing(alloc, instance, text)
    }

    // Tells what is wrong with a text that is refused.
    fn remark(
        &self,
        alloc: Global,
        instance: &Instance,
        text: &[u8],
        status: u8,
    ) -> Option<String> {
        proof_remark(alloc, instance, text, status)
    }
}

/// Says what the nodes of a certificate show on a day that it need not have been found for, by the rules,
/// demand and proof texts under names, or why a text or the nodes are refused. The texts are fetched and read
/// in this order.
pub fn reuse<S: Shelf>(alloc: Global, shelf: &mut S, rules: &str, demand: &str, proof: &str) -> u8
    ensures { IsReader (CertCommand Reusing (S.told shelf.old).held rules.now demand.now proof.now)
        (rules.now ∷ demand.now ∷ proof.now ∷ []) (S.told shelf.old) (S.told shelf.new) result }
{
    ask(alloc, shelf, rules, demand, proof, &OldNodes)
}
