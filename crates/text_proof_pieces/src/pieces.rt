//! The pieces of a text.

ghost use Rattle.std.specs.Prelude.{◌≡◌, ◌≤◌, Bool, List, [], ◌∷◌, length, MatchOption};
ghost use Rattle.model_rosters.specs.SoundInstance.{IsSoundInstance};
ghost use Rattle.text_proof_pieces.specs.PieceList.{text_reader, pieces_left, Follows};
ghost use Rattle.text_proof_pieces.specs.Told.{told_answer};

use crate::ahead::Ahead;
use crate::fault::PieceFault;
use crate::next::next_piece;
use crate::piece::Piece;
use crate::room::CertRoom;
use crate::stage::Stage;
use model_rosters::Instance;
use std::marker::Model;

/// A proof text has at most so many bytes.
const MOST_TEXT: usize = 1_073_741_824;

/// A reader of a proof text, which gives its pieces one after another. A contract sees the lines
/// that are left, what they go on with, and how many nodes were given.
#[derive(Drop)]
pub struct Pieces<'a> {
    lines: Ahead<'a>,
    stage: Stage,
    nodes: u32,
}

impl<'a> Model for Pieces<'a> {
    ghost use Rattle.std.specs.Prelude.{◌≤◌};
    ghost use Rattle.text_proof_pieces.specs.PieceList.{Reader};

    ghost Value = { Reader };

    ghost view = { λ p. record { left = p.lines; stage = p.stage; nodes_before = p.nodes } };

    ghost invariant = { λ p. p.nodes ≤ 20001 };
}

impl<'a> Pieces<'a> {
    /// Returns the pieces of a text, of which none was given.
    pub fn new(text: &'a [u8]) -> Pieces<'a>
        ensures value { result ≡ text_reader text.now }
        ensures follows { (halves : List Bool) → Follows result halves }
    {
        if MOST_TEXT < text.len() {
            return Pieces {
                lines: Ahead::new(b""),
                stage: Stage::TooLong,
                nodes: 0,
            };
        }
        Pieces {
            lines: Ahead::new(text),
            stage: Stage::Start,
            nodes: 0,
        }
    }

    /// Gives the next piece, whose word and prices the room then holds, or the fault; nothing after
    /// [`Piece::End`] or a fault. Takes no memory.
    ///
    /// The room is one that was made for the instance. At each call but the first it has the open
    /// splits that the call before has left in it; each call with the same room does so.
    #[tactic(auto, unfolding(crate::specs::PieceList::pieces_left))]
    pub fn next(
        &mut self,
        instance: &Instance,
        room: &mut CertRoom,
    ) -> Option<Result<Piece, PieceFault>>
        requires sound { IsSoundInstance instance.now }
        requires made { length instance.now.cells ≤ room.old.most }
        requires follows { Follows self.old room.old.halves }
        ensures given { MatchOption result
            ((pieces_left instance.now self.old room.old.halves ≡ [])
            × (pieces_left instance.now self.new room.new.halves ≡ []))
            (λ x. pieces_left instance.now self.old room.old.halves ≡ told_answer room.new x ∷ pieces_left
            instance.now self.new room.new.halves) }
        ensures follows { Follows self.new room.new.halves }
        ensures made { room.new.most ≡ room.old.most }
    {
        match next_piece(&mut self.lines, instance, room, self.stage, self.nodes) {
            None => None,
            Some(Ok(next)) => {
                self.stage = next.stage;
                self.nodes = next.nodes;
                Some(Ok(next.piece))
            }
            Some(Err(fault)) => {
                self.stage = Stage::Over;
                Some(Err(fault))
            }
        }
    }
}
