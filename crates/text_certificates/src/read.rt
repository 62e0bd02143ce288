//! The pieces of a text, collected.

ghost use Rattle.std.specs.Prelude.{◌≡◌, IfOk, OnOk};
ghost use Rattle.model_rosters.specs.SoundInstance.{IsSoundInstance};
ghost use Rattle.check_certificates.specs.Sound.{IsSoundCert};
ghost use Rattle.text_proof_pieces.specs.CertOf.{no_cert, with_told, is_done, collected, proof_of, Reads};
ghost use Rattle.text_proof_pieces.specs.Told.{RoomView, told, room_prices};

use check_certificates::{Cert, Node};
use model_rosters::{Instance, List, Memory, Prices, Shift};
use std::alloc::Global;
use text_proof_pieces::{CertRoom, Piece, Pieces, ProofFault};

// Returns the certificate before any piece.
fn no_cert(alloc: Global) -> Cert
    ensures { result ≡ no_cert }
{
    Cert {
        shifts: List::new(alloc),
        cost: None,
        bound: None,
        nodes: List::new(alloc),
    }
}

// A list of its own with the same items.
fn copy<T: Copy>(alloc: Global, items: &[T]) -> Result<List<T>, Memory>
    ensures { IfOk result (λ l. l ≡ items.now) }
{
    let copied = Vec::from_slice(alloc, items)?;
    Ok(List::from_vec(copied))
}

// Returns a copy of the prices that the room holds.
fn prices(alloc: Global, room: &CertRoom) -> Result<Prices, Memory>
    ensures { IfOk result (λ p. p ≡ room_prices room.now) }
{
    Ok(Prices {
        d: room.d(),
        cell: copy(alloc, room.cells())?,
        mult: copy(alloc, room.mults())?,
    })
}

// Adds a piece to what is collected.
fn add(alloc: Global, cert: &mut Cert, room: &CertRoom, piece: Piece) -> Result<(), Memory>
    ensures { OnOk result (cert.new ≡ with_told cert.old (told room.now piece)) }
{
    match piece {
        Piece::Cost(cost) => {
            cert.cost = cost;
            Ok(())
        }
        Piece::Bound(bound) => {
            cert.bound = bound;
            Ok(())
        }
        Piece::Shift { group, price } => {
            let word = copy(alloc, room.word())?;
            cert.shifts.push(Shift { group, word, price })
        }
        Piece::Split { arc, b, priced } => {
            if priced {
                let prices = Some(prices(alloc, room)?);
                return cert.nodes.push(Node::Split { arc, b, prices });
            }
            let prices = None;
            cert.nodes.push(Node::Split { arc, b, prices })
        }
        Piece::Priced => {
            let prices = prices(alloc, room)?;
            cert.nodes.push(Node::Priced { prices })
        }
        Piece::Pinned => cert.nodes.push(Node::Pinned),
        Piece::Bare => cert.nodes.push(Node::Bare),
        Piece::End => Ok(()),
    }
}

// Says whether a piece is the end.
fn is_end(piece: Piece) -> bool
    ensures { (room : RoomView) → result ≡ is_done (told room piece) }
{
    matches!(piece, Piece::End)
}

// Collects the pieces of a text.
#[tactic(auto, unfolding(text_proof_pieces::specs::CertOf::proof_of))]
fn collect(alloc: Global, instance: &Instance, text: &[u8]) -> Result<Cert, ProofFault>
    requires { IsSoundInstance instance.now }
    ensures { Reads result (proof_of instance.now text.now) }
{
    let mut room = CertRoom::for_instance(alloc, instance)?;
    let mut pieces = Pieces::new(text);
    let mut cert = no_cert(alloc);
    while let Some(answer) = pieces.next(instance, &mut room) {
        let piece = answer?;
        if is_end(piece) {
            return Ok(cert);
        }
        add(alloc, &mut cert, &room, piece)?;
    }
    Err(ProofFault::CutShort)
}

/// Reads a proof text for an instance: the certificate, which is sound, or the first fault of the
/// text.
///
/// A text that is too long is refused before all else. Then the lines are read in order, and the first that
/// cannot stand gives the fault; in a line a bad byte comes first, then its form, then what stands too often,
/// and then its words from the left.
///
/// # Errors
///
/// The first fault of the text, in this order; `Memory` may come at any time.
pub fn read_cert(alloc: Global, instance: &Instance, text: &[u8]) -> Result<Cert, ProofFault>
    requires { IsSoundInstance instance.now }
    ensures value { Reads result (proof_of instance.now text.now) }
    ensures sound { IfOk result (IsSoundCert instance.now) }
{
    let cert = collect(alloc, instance, text)?;
    Ok(cert)
}
