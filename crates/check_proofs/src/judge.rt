//! A certificate whose shifts are given, judged.

ghost use Rattle.std.specs.Prelude.{◌≡◌, ◌≤◌, IfOk, IfSome, IsSome, MatchOption, length};
ghost use Rattle.model_rosters.specs.Folds.{Each};
ghost use Rattle.model_rosters.specs.SoundInstance.{IsSoundInstance};
ghost use Rattle.check_certificates.specs.declared.cert.Cert.{Cert as Stated};
ghost use Rattle.check_certificates.specs.Nodes.{Proof};
ghost use Rattle.check_certificates.specs.Sound.{IsSoundCert, IsSoundProof, IsSoundShift, NoneIsZero};
ghost use Rattle.check_certificates.specs.certificate_laws.Causes.{IsFirstCause};
ghost use Rattle.check_parts.specs.roster_part.Faults.{IsCoverageCause};
ghost use Rattle.check_proofs.specs.Steps.{IsWalkerFor};
ghost use Rattle.check_proofs.specs.Verdicts.{HasRightRoster, IsCoverageRight, States, IsWalked, IsVerdict};

use crate::node::view_node;
use crate::verdict::bound_cause;
use crate::walk::Walk;
use crate::walker::Walker;
use check_certificates::{Cert, Node, Verdict, Why};
use check_parts::{StatedShift, coverage_fault, roster_fault};
use model_rosters::Instance;

impl Walker {
    // Sees all nodes of a certificate. Takes no memory.
    fn walk(&mut self, instance: &Instance, nodes: &[Node]) -> Walk
        requires sound { IsSoundInstance instance.now }
        requires walker { IsWalkerFor instance.now self.old }
        requires proof { (p : Proof) × IsSoundProof instance.now nodes.now p }
        requires listed { Each NoneIsZero nodes.now }
        requires room { length nodes.now ≤ self.old.stack.most }
        ensures walked { IsWalked instance.now nodes.now result }
        ensures walker { IsWalkerFor instance.now self.new }
        ensures room { self.new.stack.most ≡ self.old.stack.most }
    {
        self.stack.clear();
        let mut walk = Walk::new();
        for node in nodes {
            walk = self.step(instance, walk, &view_node(node));
        }
        walk
    }

    // Returns the first cause on a stated roster, if there is one. Takes no memory.
    pub(crate) fn roster_cause(
        &mut self,
        instance: &Instance,
        cost: Option<u64>,
        shifts: &[StatedShift],
    ) -> Option<Why>
        requires sound { IsSoundInstance instance.now }
        requires walker { IsWalkerFor instance.now self.old }
        requires shifts { Each (IsSoundShift instance.now) shifts.now }
        requires few { length shifts.now ≤ 64 }
        ensures value { MatchOption result (HasRightRoster instance.now cost shifts.now)
            (λ why. (c : Stated) → States c cost shifts.now → IsFirstCause instance.now c why) }
        ensures walker { IsWalkerFor instance.now self.new }
        ensures stack { self.new.stack ≡ self.old.stack }
    {
        match cost {
            Some(cost) => roster_fault(instance, cost, shifts, &mut self.tables.sums),
            None => None,
        }
    }

    /// Judges a certificate whose shifts are given. Takes no memory.
    pub(crate) fn judge(
        &mut self,
        instance: &Instance,
        cert: &Cert,
        shifts: &[StatedShift],
    ) -> Verdict
        requires sound { IsSoundInstance instance.now }
        requires cert { IsSoundCert instance.now cert.now }
        requires same { shifts.now ≡ cert.now.shifts }
        requires walker { IsWalkerFor instance.now self.old }
        requires room { length cert.now.nodes ≤ self.old.stack.most }
        ensures verdict { IsVerdict instance.now cert.now result }
        ensures walker { IsWalkerFor instance.now self.new }
        ensures room { self.new.stack.most ≡ self.old.stack.most }
    {
        if let Some(why) = self.roster_cause(instance, cert.cost, shifts) {
            return Verdict::No(why);
        }
        let walk = self.walk(instance, cert.nodes.as_slice());
        decided(instance, cert.cost, cert.bound, shifts, walk)
    }
}

// Returns the first cell whose coverage is outside its floor and ceiling, if there is a roster.
fn coverage_cause(instance: &Instance, cost: Option<u64>, shifts: &[StatedShift]) -> Option<Why>
    requires sound { IsSoundInstance instance.now }
    requires few { length shifts.now ≤ 64 }
    ensures { MatchOption result (IfSome cost (λ _. IsCoverageRight instance.now shifts.now))
        (λ why. IsSome cost × IsCoverageCause instance.now shifts.now why) }
{
    match cost {
        Some(_) => coverage_fault(instance, shifts),
        None => None,
    }
}

// Returns the verdict on a certificate whose roster is stated rightly, if it has one, once all its
// nodes were seen.
pub(crate) fn decided(
    instance: &Instance,
    cost: Option<u64>,
    bound: Option<u64>,
    shifts: &[StatedShift],
    walk: Walk,
) -> Verdict
    requires sound { IsSoundInstance instance.now }
    requires few { length shifts.now ≤ 64 }
    ensures { (c : Stated) → IsSoundCert instance.now c → States c cost shifts.now → c.bound ≡ bound
        → HasRightRoster instance.now cost shifts.now → IsWalked instance.now c.nodes walk
        → IsVerdict instance.now c result }
{
    if let Some(why) = walk.why {
        return Verdict::No(why);
    }
    if let Some(why) = bound_cause(instance, bound, walk.shown.unwrap_or(0)) {
        return Verdict::No(why);
    }
    if let Some(why) = coverage_cause(instance, cost, shifts) {
        return Verdict::No(why);
    }
    Verdict::Yes { cost, bound }
}
