//! The bench, and its calls.

ghost use Rattle.std.specs.Prelude.{◌≡◌, ◌≤◌, IfOk, length, min};
ghost use Rattle.model_rosters.specs.SoundInstance.{IsSoundInstance};
ghost use Rattle.check_certificates.specs.Sound.{IsSoundCert};
ghost use Rattle.check_proofs.specs.Benches.{IsBenchFor, node_room};
ghost use Rattle.check_proofs.specs.Judging.{IsJudged};
ghost use Rattle.check_proofs.specs.Verdicts.{IsVerdict};

use crate::judged::Judged;
use crate::seen::Seen;
use crate::walker::Walker;
use check_certificates::{Cert, MOST_NODES, Verdict};
use model_rosters::{Instance, Memory};
use std::alloc::Global;
use text_proof_pieces::CertRoom;

/// What judging certificates of an instance needs: a table of sums, rooms for prices, for the counts of
/// pinned leaves and for stated shifts, and a stack of open splits. It takes all its memory when it is
/// made, and serves one certificate after another.
#[derive(Drop)]
pub struct Bench {
    pub(crate) walker: Walker,
    pub(crate) seen: Seen,
}

impl Bench {
    // Makes a bench for certificates of an instance with at most so many nodes.
    fn for_nodes(alloc: Global, instance: &Instance, most: usize) -> Result<Bench, Memory>
        requires sound { IsSoundInstance instance.now }
        requires few { most ≤ 20001 }
        ensures bench { IfOk result (IsBenchFor instance.now) }
        ensures room { IfOk result (λ b. node_room b ≡ most) }
    {
        let seen = Seen::new(alloc)?;
        let walker = Walker::for_nodes(alloc, instance, most)?;
        Ok(Bench { walker, seen })
    }

    /// Returns a bench for a sound instance and for certificates of at most as many nodes as this one has.
    /// It takes all its memory here.
    ///
    /// # Errors
    ///
    /// `Memory` where memory runs out; nothing is kept then.
    pub fn for_proof(alloc: Global, instance: &Instance, cert: &Cert) -> Result<Bench, Memory>
        requires sound { IsSoundInstance instance.now }
        ensures bench { IfOk result (IsBenchFor instance.now) }
        ensures room { IfOk result (λ b. node_room b ≡ min (length cert.now.nodes) 20001) }
    {
        Bench::for_nodes(alloc, instance, cert.nodes.len().min(MOST_NODES))
    }

    /// Returns a bench for every proof text for a sound instance. It takes all its memory here.
    ///
    /// # Errors
    ///
    /// `Memory` where memory runs out; nothing is kept then.
    pub fn for_texts(alloc: Global, instance: &Instance) -> Result<Bench, Memory>
        requires { IsSoundInstance instance.now }
        ensures bench { IfOk result (IsBenchFor instance.now) }
        ensures room { IfOk result (λ b. node_room b ≡ 20001) }
    {
        Bench::for_nodes(alloc, instance, MOST_NODES)
    }

    /// Judges a certificate: Yes comes exactly where it is accepted, with its cost and its bound, and
    /// else No with the cause of least number, at its first shift, team, node or cell. Takes no memory.
    ///
    /// The bench was made for the instance, and for at least as many nodes. On a yes the stated words
    /// are an allowed roster of exactly the stated cost, every allowed roster costs at least the stated
    /// bound, and where the bound is none no roster is allowed.
    pub fn judge(&mut self, instance: &Instance, cert: &Cert) -> Verdict
        requires sound { IsSoundInstance instance.now }
        requires cert { IsSoundCert instance.now cert.now }
        requires bench { IsBenchFor instance.now self.old }
        requires room { length cert.now.nodes ≤ node_room self.old }
        ensures verdict { IsVerdict instance.now cert.now result }
        ensures bench { IsBenchFor instance.now self.new }
        ensures room { node_room self.new ≡ node_room self.old }
    {
        self.seen.shifts.keep_all(cert.shifts.as_slice());
        self.walker.judge(instance, cert, self.seen.shifts.shifts())
    }

    /// Judges the certificate that a proof text says, or finds the first fault of the text. The answer
    /// is that of reading the text whole and then [`Bench::judge`], but no list of nodes is held, and
    /// it takes no memory.
    ///
    /// The bench was made for texts, and the room for the instance. Both serve one text after another.
    pub fn judge_text(&mut self, instance: &Instance, text: &[u8], room: &mut CertRoom) -> Judged
        requires sound { IsSoundInstance instance.now }
        requires bench { IsBenchFor instance.now self.old }
        requires nodes { node_room self.old ≡ 20001 }
        requires made { length instance.now.cells ≤ room.old.most }
        ensures judged { IsJudged instance.now text.now result }
        ensures bench { IsBenchFor instance.now self.new }
        ensures nodes { node_room self.new ≡ 20001 }
        ensures made { room.new.most ≡ room.old.most }
    {
        self.seen.clear();
        self.walker.judge_text(instance, text, room, &mut self.seen)
    }
}
