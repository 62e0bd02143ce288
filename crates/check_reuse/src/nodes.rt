//! An old certificate's nodes, judged on another day: `reuse`.

ghost use Rattle.std.specs.Prelude.{◌≡◌, IfOk};
ghost use Rattle.model_rosters.specs.SoundInstance.{IsSoundInstance};
ghost use Rattle.check_certificates.specs.Sound.{IsSoundCert};
ghost use Rattle.check_proofs.specs.Verdicts.{IsVerdict};
ghost use Rattle.check_reuse.specs.Reuse.{nodes_only, reuse_of, IsReuse};

use check_certificates::{Cert, Verdict, Why};
use check_proofs::Bench;
use model_rosters::{Instance, List, Memory};
use std::alloc::Global;

/// What the nodes of an old certificate show on a day.
#[derive(Clone, Copy, Debug, PartialEq, Eq, Drop)]
pub enum Reused {
    /// Every allowed roster costs at least this; none says that no roster is allowed.
    Bound(Option<u64>),
    /// The nodes are not right for the day: the first cause on the tree of nodes.
    Refused(Why),
}

/// Returns the nodes of a certificate alone: no roster, and the bound none.
fn without_roster(alloc: Global, cert: Cert) -> Cert
    ensures { result ≡ nodes_only cert }
{
    Cert {
        shifts: List::new(alloc),
        cost: None,
        bound: None,
        nodes: cert.nodes,
    }
}

/// Returns what a verdict on nodes alone, with the bound none, says of them. A refusal for the bound
/// tells what the nodes show.
fn told(verdict: Verdict) -> Reused
    ensures { result ≡ reuse_of verdict }
{
    match verdict {
        Verdict::Yes { .. } => Reused::Bound(None),
        Verdict::No(Why::BoundTooHigh { shown, .. }) => Reused::Bound(shown),
        Verdict::No(why) => Reused::Refused(why),
    }
}

/// Judges a certificate, on a bench of its own.
fn judged(alloc: Global, instance: &Instance, cert: &Cert) -> Result<Verdict, Memory>
    requires sound { IsSoundInstance instance.now }
    requires cert { IsSoundCert instance.now cert.now }
    ensures { IfOk result (IsVerdict instance.now cert.now) }
{
    let mut bench = Bench::for_proof(alloc, instance, cert)?;
    let verdict = bench.judge(instance, cert);
    drop(bench);
    Ok(verdict)
}

/// Returns what the nodes of a certificate show on a day that it need not have been found for. Its
/// roster, its cost and its bound are left aside.
///
/// A bound is what the root of the tree of nodes shows, none where this is above the greatest cost of a
/// roster: every allowed roster costs at least that, and where it is none no roster is allowed. A refusal
/// comes exactly where a split is on no arc of the day or has an empty half, or a pinned leaf leaves an
/// arc more than one count, and has the first cause of these three in their order.
///
/// The day is sound, and the certificate is sound for it, so that its prices are those of the day's cells.
/// The certificate is dropped, whatever the answer.
///
/// # Errors
///
/// `Memory` where memory runs out.
pub fn reuse(alloc: Global, instance: &Instance, cert: Cert) -> Result<Reused, Memory>
    requires sound { IsSoundInstance instance.now }
    requires cert { IsSoundCert instance.now cert }
    ensures { IfOk result (IsReuse instance.now cert) }
{
    let nodes = without_roster(alloc, cert);
    let verdict = judged(alloc, instance, &nodes);
    drop(nodes);
    Ok(told(verdict?))
}
