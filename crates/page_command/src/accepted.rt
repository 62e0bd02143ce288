//! What shows a roster, and that of an accepted certificate.

ghost use Rattle.std.specs.Prelude.{◌≡◌, IfOk, IfSome, Ok as Is};
ghost use Rattle.std.specs.Option.{option_copied};
ghost use Rattle.check_certificates.specs.certificate_laws.Accepted.{Accepts};
ghost use Rattle.check_certificates.specs.Sound.{IsSoundCert};
ghost use Rattle.check_certificates.specs.declared.cert.Cert.{Cert as Certificate};
ghost use Rattle.text_proof_pieces.specs.CertOf.{proof_of};
ghost use Rattle.model_rosters.specs.SoundInstance.{IsSoundInstance};
ghost use Rattle.page_views.specs.Draw.{IsOldRoster, IsSoundShown};
ghost use Rattle.page_views.specs.Shown.{IsShown, Showing, certified};

use check_certificates::Cert;
use command_answers::Answer;
use model_rosters::{Instance, Memory, Shift};
use page_labels::Labels;
use page_views::{Kind, ShownRoster, certified, line_instead, shown};
use std::alloc::Global;
use text_certificates::{ProofFault, read_cert};

// Says what shows a roster under labels, beside an old one where there is one.
fn drawn_answer(
    alloc: Global,
    kind: Kind,
    instance: &Instance,
    labels: &Labels,
    roster: &ShownRoster,
    old: Option<&[Shift]>,
) -> Result<Answer, Memory>
    requires sound { IsSoundInstance instance.now }
    requires roster { IsSoundShown instance.now roster.now }
    requires old { IfSome (option_copied old) (IsOldRoster instance.now) }
    ensures { IfOk result (λ a. (a.status ≡ 0)
        × IsShown kind labels.now instance.now roster.now (option_copied old.entry) a.output) }
{
    let output = shown(alloc, kind, instance, labels, roster, old)?;
    Ok(Answer { status: 0, output })
}

/// Says what shows a roster under labels, beside an old one where there is one, or why a name of the labels
/// or the number of a shift keeps it from being shown.
///
/// # Errors
///
/// `Memory` where memory runs out; there is no answer then.
pub fn shown_answer(
    alloc: Global,
    kind: Kind,
    instance: &Instance,
    labels: &Labels,
    roster: &ShownRoster,
    old: Option<&[Shift]>,
) -> Result<Answer, Memory>
    requires sound { IsSoundInstance instance.now }
    requires roster { IsSoundShown instance.now roster.now }
    requires old { IfSome (option_copied old) (IsOldRoster instance.now) }
    ensures { IfOk result (λ a. Showing kind labels.now instance.now roster.now (option_copied old.entry)
        a.status a.output) }
{
    let line = line_instead(alloc, kind, labels, roster)?;
    match line {
        Some(output) => Ok(Answer { status: 5, output }),
        None => drawn_answer(alloc, kind, instance, labels, roster, old),
    }
}

// Reads the certificate of a proof text that tells one.
fn cert_of(alloc: Global, instance: &Instance, text: &[u8]) -> Result<Cert, Memory>
    requires sound { IsSoundInstance instance.now }
    requires told { (c : Certificate) × (proof_of instance.now text.now ≡ Is c) }
    ensures reading { IfOk result (λ cert. proof_of instance.now text.now ≡ Is cert) }
    ensures sound { IfOk result (IsSoundCert instance.now) }
{
    match read_cert(alloc, instance, text) {
        Ok(cert) => Ok(cert),
        Err(ProofFault::Memory) => Err(Memory),
        Err(_) => unreachable!(),
    }
}

/// Says what shows the roster of an accepted certificate.
///
/// # Errors
///
/// `Memory` where memory runs out; there is no answer then.
pub fn accepted_answer(
    alloc: Global,
    kind: Kind,
    instance: &Instance,
    labels: &Labels,
    old: Option<&[Shift]>,
    text: &[u8],
) -> Result<Answer, Memory>
    requires sound { IsSoundInstance instance.now }
    requires old { IfSome (option_copied old) (IsOldRoster instance.now) }
    requires accepted { (c : Certificate) × (proof_of instance.now text.now ≡ Is c)
        × Accepts instance.now c }
    ensures { IfOk result (λ a. (c : Certificate) → proof_of instance.now text.now ≡ Is c
        → Showing kind labels.now instance.now (certified c) (option_copied old.entry) a.status a.output) }
{
    let cert = cert_of(alloc, instance, text)?;
    let roster = certified(cert);
    shown_answer(alloc, kind, instance, labels, &roster, old)
}
