//! Bytes of a text, and the word of a line in which each stands.

use std::alloc::Global;

/// A byte that no line may hold, and its word in the line, from 1.
#[derive(Clone, Copy)]
struct BadPlace {
    byte: u8,
    word: usize,
}

/// Where a cursor over the bytes of a text stands.
#[derive(Clone, Copy)]
struct At {
    /// The line, from 1.
    line: u32,
    /// How many words of it have begun.
    words: usize,
    /// Whether the byte before is one of a word.
    inside: bool,
}

// Whether a byte stands between words.
fn is_blank(byte: u8) -> bool {
    byte == b' ' || byte == b'\t'
}

// Whether a byte before a comment may stand in a line, behind which this byte stands.
fn may_stand(byte: u8, next: Option<u8>) -> bool {
    if byte == b'\r' {
        return next == Some(b'\n');
    }
    (32 <= byte && byte <= 126) || is_blank(byte)
}

// Returns where the cursor stands behind a byte.
fn behind(at: At, byte: u8) -> At {
    if byte == b'\n' {
        return At {
            line: at.line.saturating_add(1),
            words: 0,
            inside: false,
        };
    }
    let inside = !is_blank(byte);
    let begins = inside && !at.inside;
    At {
        line: at.line,
        words: if begins {
            at.words.saturating_add(1)
        } else {
            at.words
        },
        inside,
    }
}

// Returns the first byte of a line that may not stand there.
fn bad_place(text: &[u8], line: u32) -> Option<BadPlace> {
    let mut at = At {
        line: 1,
        words: 0,
        inside: false,
    };
    for (place, byte) in text.iter().enumerate() {
        let next = text.get(place.saturating_add(1)).copied();
        let is_bad = *byte != b'\n' && !may_stand(*byte, next);
        at = behind(at, *byte);
        if is_bad && at.line == line {
            return Some(BadPlace {
                byte: *byte,
                word: at.words,
            });
        }
        if line < at.line {
            return None;
        }
    }
    None
}

// Whether a text begins as one in another encoding does, with a mark or with a zero byte.
fn is_other_encoding(text: &[u8]) -> bool {
    text.iter()
        .take(4)
        .any(|byte| matches!(*byte, 0 | 0xef | 0xfe | 0xff))
}

/// Returns the note on the first byte of a line that may not stand there; nothing where the text begins as
/// one in another encoding, of which another note speaks.
pub(crate) fn byte_note(alloc: Global, name: &str, text: &[u8], line: u32) -> Option<String> {
    if is_other_encoding(text) {
        return None;
    }
    let BadPlace { byte, word } = bad_place(text, line)?;
    format!(in alloc;
        "{name}: line {line}, word {word}: the byte {byte} is no printable ASCII; only a comment may hold it"
    ).ok()
}

/// What is known of a line up to a byte of it.
#[derive(Clone, Copy)]
enum Seen {
    /// So many first letters of the line's first word are those of `shift`.
    First(usize),
    /// It is no line of a shift, or a comment has begun.
    Other,
    /// It is one of a shift; whether the byte before is one of a word.
    Shift { inside: bool },
}

// Returns what is known of a line whose first letters are so many of `shift` behind a further byte.
fn first_behind(count: usize, byte: u8) -> Seen {
    if b"shift".get(count).copied() == Some(byte) {
        return Seen::First(count.saturating_add(1));
    }
    if !is_blank(byte) {
        return Seen::Other;
    }
    match count {
        0 => Seen::First(0),
        5 => Seen::Shift { inside: false },
        _ => Seen::Other,
    }
}

// Returns what is known of a line behind a further byte.
fn seen_behind(seen: Seen, byte: u8) -> Seen {
    if byte == b'\n' {
        return Seen::First(0);
    }
    match seen {
        Seen::First(count) => first_behind(count, byte),
        Seen::Other => Seen::Other,
        Seen::Shift { .. } if byte == b'#' => Seen::Other,
        Seen::Shift { .. } => Seen::Shift {
            inside: !is_blank(byte),
        },
    }
}

// Returns the first line of a shift in which a `#` stands in a word.
fn marked_word(text: &[u8]) -> Option<u32> {
    let mut line = 1_u32;
    let mut seen = Seen::First(0);
    for byte in text {
        if *byte == b'#' && matches!(seen, Seen::Shift { inside: true }) {
            return Some(line);
        }
        seen = seen_behind(seen, *byte);
        if *byte == b'\n' {
            line = line.saturating_add(1);
        }
    }
    None
}

/// Returns the note on the first line of a shift in which a `#` stands in a word; nothing where there is
/// none.
pub fn comment_note(alloc: Global, text: &[u8]) -> Option<String> {
    let line = marked_word(text)?;
    format!(in alloc;
        "roster: line {line}: a # stands in a word; what follows it is a comment"
    ).ok()
}
