//! The certificate with which a search begins.

ghost use Rattle.std.specs.Prelude.{◌≡◌, [], ◌∷◌, Err as Refused, IfOk};
ghost use Rattle.check_certificates.specs.Sound.{IsSoundCert};
ghost use Rattle.text_old_shifts.specs.FromOf.{cert_of_shifts, either_of, from_of};
ghost use Rattle.text_old_shifts.specs.ShiftsOf.{shifts_of};
ghost use Rattle.text_old_shifts.specs.SoundShifts.{AreSoundShifts};
ghost use Rattle.text_proof_pieces.specs.CertOf.{Reads};
ghost use Rattle.model_rosters.specs.SoundInstance.{IsSoundInstance};

use crate::fault::OldFault;
use crate::read::read_shifts;
use crate::said::SaidShifts;
use check_certificates::{Cert, Node};
use model_rosters::{Instance, List, Memory};
use std::alloc::Global;
use text_certificates::read_cert;
use text_proof_pieces::ProofFault;

// Returns a list of one node that shows nothing.
fn bare(alloc: Global) -> Result<List<Node>, Memory>
    ensures { IfOk result (λ nodes. nodes ≡ Node.Bare ∷ []) }
{
    let mut nodes = List::new(alloc);
    nodes.push(Node::Bare)?;
    Ok(nodes)
}

// Returns a certificate of shifts, whose tree shows nothing.
fn cert_of_shifts(alloc: Global, said: SaidShifts) -> Result<Cert, Memory>
    ensures value { IfOk result (λ c. c ≡ cert_of_shifts said.shifts) }
    ensures sound { (i : Instance) → AreSoundShifts i said → IfOk result (IsSoundCert i) }
{
    let nodes = bare(alloc)?;
    Ok(Cert {
        shifts: said.shifts,
        cost: Some(0),
        bound: Some(0),
        nodes,
    })
}

// Returns the certificate of the shifts that a text says which is no proof text of the day, for this fault.
fn by_shifts(
    alloc: Global,
    instance: &Instance,
    text: &[u8],
    fault: ProofFault,
) -> Result<Cert, ProofFault>
    requires { IsSoundInstance instance.now }
    ensures value { Reads result (either_of (Refused fault) (shifts_of instance.now text.now)) }
    ensures sound { IfOk result (IsSoundCert instance.now) }
{
    match read_shifts(alloc, instance, text) {
        Ok(said) => Ok(cert_of_shifts(alloc, said)?),
        Err(OldFault::Memory) => Err(ProofFault::Memory),
        Err(_) => Err(fault),
    }
}

/// Reads the certificate with which a search of a day begins. A text that is a proof text of the day gives
/// its own; else one of a proof text or a report gives a certificate of the shifts that [`read_shifts`]
/// reads, whose tree shows nothing.
///
/// # Errors
///
/// Where it says no such shifts, the first fault of it as a proof text of the day, as [`read_cert`] finds it;
/// `Memory` may come at any time.
#[tactic(auto, unfolding(crate::specs::FromOf::from_of))]
pub fn read_from(alloc: Global, instance: &Instance, text: &[u8]) -> Result<Cert, ProofFault>
    requires { IsSoundInstance instance.now }
    ensures value { Reads result (from_of instance.now text.now) }
    ensures sound { IfOk result (IsSoundCert instance.now) }
{
    match read_cert(alloc, instance, text) {
        Ok(cert) => Ok(cert),
        Err(ProofFault::Memory) => Err(ProofFault::Memory),
        Err(fault) => by_shifts(alloc, instance, text, fault),
    }
}
