//! What is noted of a text's encoding.

ghost use Rattle.std.specs.Prelude.{◌≡◌};

use command_shelf::Shelf;

const MARK: &[u8] = b"\xef\xbb\xbf";

const WIDE_MARKS: [&[u8]; 2] = [b"\xff\xfe", b"\xfe\xff"];

// Whether one of the first bytes is zero, as each second byte of plain letters in UTF-16 is.
fn begins_with_zero(text: &[u8]) -> bool {
    text.iter().take(4).any(|byte| *byte == 0)
}

// Says whether a text begins as one of wide characters does.
fn is_wide(text: &[u8]) -> bool {
    WIDE_MARKS.iter().any(|mark| text.starts_with(mark)) || begins_with_zero(text)
}

// Returns what is to be noted of a text to which an answer has this status: 3, 4 and 5 refuse it.
fn encoding_note(text: &[u8], status: u8) -> Option<&'static str> {
    if !matches!(status, 3 | 4 | 5) {
        return None;
    }
    if text.starts_with(MARK) {
        return Some("the text begins with a byte order mark: save it as UTF-8 without one");
    }
    if is_wide(text) {
        return Some("the text is in UTF-16: save it as UTF-8 without a byte order mark");
    }
    None
}

/// Notes what the first bytes of a text show of its encoding, where the status of an answer refuses it.
pub fn note_encoding<S: Shelf>(shelf: &mut S, text: &[u8], status: u8)
    ensures { S.told shelf.new ≡ S.told shelf.old }
{
    match encoding_note(text, status) {
        Some(note) => shelf.note(note),
        None => {}
    }
}
