//! A proof text, judged piece by piece.

ghost use Rattle.std.specs.Prelude.{◌≡◌, ◌≤◌, [], None, length};
ghost use Rattle.model_rosters.specs.Folds.{Each};
ghost use Rattle.model_rosters.specs.SoundInstance.{IsSoundInstance};
ghost use Rattle.check_certificates.specs.declared.cert.Cert.{Cert as Stated};
ghost use Rattle.check_certificates.specs.Sound.{IsSoundCert, IsSoundShift};
ghost use Rattle.text_proof_pieces.specs.CertOf.{is_done};
ghost use Rattle.text_proof_pieces.specs.Told.{RoomView, room_prices, own_prices as told_prices, told, node as told_node};
ghost use Rattle.text_proof_pieces.specs.ToldSound.{IsToldSound};
ghost use Rattle.check_proofs.specs.Judging.{IsJudged, place_at, IsReady, HasSeen, IsTaken};
ghost use Rattle.check_proofs.specs.Steps.{IsWalkerFor};
ghost use Rattle.check_proofs.specs.Views.{prices_of, own_prices, node_of};
ghost use Rattle.check_proofs.specs.Verdicts.{IsVerdict};

use crate::judge::decided;
use crate::judged::Judged;
use crate::node::{NodeView, PricesView};
use crate::seen::Seen;
use crate::walker::Walker;
use check_certificates::Verdict;
use model_rosters::Instance;
use text_proof_pieces::{CertRoom, Piece, PieceFault, Pieces};

// Returns the prices that the room holds.
fn prices_in(room: &CertRoom) -> PricesView<'_>
    ensures { prices_of result ≡ room_prices room.now }
{
    PricesView {
        d: room.d(),
        cell: room.cells(),
        mult: room.mults(),
    }
}

// Returns the prices of a split that the room holds, if it has some.
fn own_prices_in(room: &CertRoom, priced: bool) -> Option<PricesView<'_>>
    ensures { own_prices result ≡ told_prices priced (room_prices room.now) }
{
    if priced { Some(prices_in(room)) } else { None }
}

// Says whether a piece is the end.
fn is_end(piece: Piece) -> bool
    ensures { (room : RoomView) → result ≡ is_done (told room piece) }
{
    matches!(piece, Piece::End)
}

impl Walker {
    // Sees the next node of a text. Takes no memory.
    fn see(&mut self, instance: &Instance, seen: &mut Seen, node: &NodeView<'_>)
        requires sound { IsSoundInstance instance.now }
        requires ready { IsReady instance.now self.old seen.old }
        requires told { IsToldSound instance.now (length seen.old.shifts)
            (place_at self.old.stack seen.old.walk) (told_node (node_of node.now)) }
        ensures { IsTaken instance.now self.old seen.old (told_node (node_of node.now)) self.new seen.new }
    {
        let walk = self.step(instance, seen.walk, node);
        seen.walk = walk;
    }

    // Sees the next piece of a text, whose word and prices lie in the room. Takes no memory.
    fn take(&mut self, instance: &Instance, room: &CertRoom, seen: &mut Seen, piece: Piece)
        requires sound { IsSoundInstance instance.now }
        requires ready { IsReady instance.now self.old seen.old }
        requires told { IsToldSound instance.now (length seen.old.shifts)
            (place_at self.old.stack seen.old.walk) (told room.now piece) }
        ensures { IsTaken instance.now self.old seen.old (told room.now piece) self.new seen.new }
    {
        match piece {
            Piece::Cost(cost) => seen.cost = cost,
            Piece::Bound(bound) => seen.bound = bound,
            Piece::Shift { group, price } => seen.shifts.keep(group, room.word(), price),
            Piece::Split { arc, b, priced } => {
                let prices = own_prices_in(room, priced);
                self.see(instance, seen, &NodeView::Split { arc, b, prices });
            }
            Piece::Priced => {
                let prices = prices_in(room);
                self.see(instance, seen, &NodeView::Priced { prices });
            }
            Piece::Pinned => self.see(instance, seen, &NodeView::Pinned),
            Piece::Bare => self.see(instance, seen, &NodeView::Bare),
            Piece::End => {}
        }
    }

    // Returns the verdict on a certificate of which all was seen. Takes no memory.
    fn verdict(&mut self, instance: &Instance, seen: &Seen) -> Verdict
        requires sound { IsSoundInstance instance.now }
        requires walker { IsWalkerFor instance.now self.old }
        requires shifts { Each (IsSoundShift instance.now) seen.now.shifts }
        requires few { length seen.now.shifts ≤ 64 }
        ensures verdict { (c : Stated) → IsSoundCert instance.now c → HasSeen instance.now c self.old seen.now
            → IsVerdict instance.now c result }
        ensures walker { IsWalkerFor instance.now self.new }
        ensures stack { self.new.stack ≡ self.old.stack }
    {
        let shifts = seen.shifts.shifts();
        if let Some(why) = self.roster_cause(instance, seen.cost, shifts) {
            return Verdict::No(why);
        }
        decided(instance, seen.cost, seen.bound, shifts, seen.walk)
    }

    /// Judges the certificate that a proof text says, or finds the first fault of the text. Takes no
    /// memory. Nothing was seen before; what was seen stays.
    pub(crate) fn judge_text(
        &mut self,
        instance: &Instance,
        text: &[u8],
        room: &mut CertRoom,
        seen: &mut Seen,
    ) -> Judged
        requires sound { IsSoundInstance instance.now }
        requires walker { IsWalkerFor instance.now self.old }
        requires nodes { self.old.stack.most ≡ 20001 }
        requires made { length instance.now.cells ≤ room.old.most }
        requires nothing { seen.old ≡ record {
          cost = None;
          bound = None;
          shifts = [];
          walk = record { nodes = 0; shown = None; why = None };
        } }
        ensures judged { IsJudged instance.now text.now result }
        ensures walker { IsWalkerFor instance.now self.new }
        ensures nodes { self.new.stack.most ≡ 20001 }
        ensures made { room.new.most ≡ room.old.most }
    {
        self.stack.clear();
        let mut pieces = Pieces::new(text);
        while let Some(answer) = pieces.next(instance, room) {
            let piece = match answer {
                Ok(piece) => piece,
                Err(fault) => return Judged::Fault(fault),
            };
            if is_end(piece) {
                return Judged::Said(self.verdict(instance, seen));
            }
            self.take(instance, room, seen, piece);
        }
        Judged::Fault(PieceFault::CutShort)
    }
}
