//! The next line, where the text may not end yet.

ghost use Rattle.std.specs.Prelude.{◌≡◌, ◌∷◌, [], Ok, Err, OnOk, IfOk, IfErr};
ghost use Rattle.model_rosters.specs.declared.instance.Instance.{Instance as Day};
ghost use Rattle.text_proof_pieces.specs.PieceList.{Spot, Place, IsOpen, pieces_from};

use crate::ahead::Ahead;
use crate::fault::PieceFault;
use text_lines::{BadByte, Line};

/// Takes the next line, where the text may not end yet.
///
/// # Errors
///
/// `CutShort` at the end of the text, and `BadByte` with the line where the line has one.
pub fn next_line<'a>(lines: &mut Ahead<'a>) -> Result<Line<'a>, PieceFault>
    ensures line { IfOk result (λ line. lines.old ≡ Ok line ∷ lines.new) }
    ensures fault { IfErr result (λ e. (i : Day) (s : Spot) (p : Place) → IsOpen i s
        → pieces_from i s p lines.old ≡ Err e ∷ []) }
{
    match lines.next() {
        None => Err(PieceFault::CutShort),
        Some(Err(BadByte { line })) => Err(PieceFault::BadByte { line }),
        Some(Ok(line)) => Ok(line),
    }
}
