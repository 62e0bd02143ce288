//! The stretches of a word.

ghost use Rattle.std.specs.Prelude.{◌≡◌, ◌≤◌, ◌++◌, IfOk, OnOk, length};
ghost use Rattle.page_csv.specs.Pieces.{ended, extended, grown, last_piece, pieces_of, started};

use model_rosters::{List, Memory};
use std::alloc::Global;

/// Periods in a row of a shift with the same code.
#[derive(Clone, Copy, Debug, PartialEq, Eq, Drop)]
pub struct Piece {
    /// The byte of the code.
    pub byte: u8,
    /// The first period, from 1.
    pub first: u8,
    /// The last period, not before the first.
    pub last: u8,
}

// Returns the stretch that a letter begins, behind so many periods.
fn started(passed: u8, byte: u8) -> Piece
    requires { passed ≤ 96 }
    ensures { result ≡ started passed byte }
{
    Piece {
        byte,
        first: passed + 1,
        last: passed + 1,
    }
}

// Returns the stretch with a further letter.
fn extended(piece: Piece, passed: u8) -> Piece
    requires { passed ≤ 96 }
    ensures { result ≡ extended piece passed }
{
    Piece {
        byte: piece.byte,
        first: piece.first,
        last: passed + 1,
    }
}

// Returns the stretch to which a further letter belongs.
#[tactic(auto, unfolding(crate::specs::Pieces::grown))]
fn grown(live: Option<Piece>, passed: u8, byte: u8) -> Piece
    requires { passed ≤ 96 }
    ensures { result ≡ grown live passed byte }
{
    match live {
        None => started(passed, byte),
        Some(piece) if piece.byte == byte => extended(piece, passed),
        Some(_) => started(passed, byte),
    }
}

// Appends the open stretch where a further letter ends it.
#[tactic(auto, unfolding(crate::specs::Pieces::ended))]
fn end(pieces: &mut List<Piece>, live: Option<Piece>, byte: u8) -> Result<(), Memory>
    ensures { OnOk result (pieces.new ≡ pieces.old ++ ended live byte) }
{
    let Some(piece) = live else {
        return Ok(());
    };
    if piece.byte == byte {
        return Ok(());
    }
    pieces.push(piece)
}

// Appends the stretch that is open at the end.
fn last_piece(pieces: &mut List<Piece>, live: Option<Piece>) -> Result<(), Memory>
    ensures { OnOk result (pieces.new ≡ pieces.old ++ last_piece live) }
{
    match live {
        None => Ok(()),
        Some(piece) => pieces.push(piece),
    }
}

/// Returns the greatest stretches of one code of a word of at most 96 letters, from the first period on.
///
/// # Errors
///
/// `Memory` where memory runs out; nothing is kept then.
pub fn pieces_of(alloc: Global, word: &[u8]) -> Result<List<Piece>, Memory>
    requires { length word.now ≤ 96 }
    ensures { IfOk result (λ pieces. pieces ≡ pieces_of word.now) }
{
    let mut pieces = List::new(alloc);
    let mut live: Option<Piece> = None;
    let mut passed: u8 = 0;
    for byte in word {
        end(&mut pieces, live, *byte)?;
        live = Some(grown(live, passed, *byte));
        passed += 1;
    }
    last_piece(&mut pieces, live)?;
    Ok(pieces)
}
