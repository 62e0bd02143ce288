//! The first line.

ghost use Rattle.std.specs.Prelude.{◌≡◌};
ghost use Rattle.text_old_shifts.specs.Header.{header_of};
ghost use Rattle.text_proof_pieces.specs.ShiftLines.{is_pair};

use text_lines::{Line, Words};

/// What the first line of an old text tells.
#[derive(Clone, Copy, Debug, PartialEq, Eq, Drop)]
pub struct Header {
    /// Whether the name of a group stands before the word of a shift.
    pub named: bool,
    /// Whether the text is a report, and no proof text.
    pub report: bool,
}

/// Whether these are two words, the first and the second.
pub(crate) fn is_pair(words: &mut Words<'_>, first: &[u8], second: &[u8]) -> bool
    ensures { result ≡ is_pair first.now second.now words.old }
{
    let Some(v) = words.next() else {
        return false;
    };
    let Some(w) = words.next() else {
        return false;
    };
    if let Some(_) = words.next() {
        return false;
    }
    v == first && w == second
}

/// Returns what the first line of an old text tells, if it is one.
#[tactic(auto, unfolding(crate::specs::Header::header_of))]
pub(crate) fn read_header(line: &Line<'_>) -> Option<Header>
    ensures { result ≡ header_of line.now.words }
{
    if is_pair(&mut line.words(), b"proof", b"1") {
        return Some(Header {
            named: false,
            report: false,
        });
    }
    if is_pair(&mut line.words(), b"proof", b"2") {
        return Some(Header {
            named: true,
            report: false,
        });
    }
    if is_pair(&mut line.words(), b"report", b"1") {
        return Some(Header {
            named: false,
            report: true,
        });
    }
    if is_pair(&mut line.words(), b"report", b"2") {
        return Some(Header {
            named: true,
            report: true,
        });
    }
    None
}
