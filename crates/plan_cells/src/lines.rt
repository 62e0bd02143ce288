//! Lines.

ghost use Rattle.std.specs.Prelude.{◌≡◌, ◌+◌, ◌^◌, ◌<◌, ◌≤◌, ◌==◌, [], ◌∷◌, length, MatchOption, IfSome, IsTrue};
ghost use Rattle.std.specs.List.{position_or_len};
ghost use Rattle.std.specs.Str.Lines.{lines, strip_carriage_return};
ghost use Rattle.plan_cells.specs.Lines.{has_mark, rest_lines, text_lines, without_mark};

use std::marker::Model;

/// A line of a text, without a carriage return at its end.
#[derive(Drop)]
pub struct Line<'a> {
    /// Its number in the text, from 1.
    pub number: u32,
    /// What stands in it.
    pub bytes: &'a [u8],
}

/// A cursor over the lines of a text. A contract sees the list of the lines still to come.
#[derive(Drop)]
pub struct Lines<'a> {
    passed: u32,
    rest: &'a [u8],
}

impl<'a> Model for Lines<'a> {
    ghost use Rattle.std.specs.Prelude.{◌+◌, ◌^◌, ◌<◌, length, List};
    ghost use Rattle.plan_cells.specs.Lines.{NumberedLine, rest_lines};

    ghost Value = { List NumberedLine };

    ghost view = { λ l. rest_lines (l.passed + 1) l.rest.now };

    ghost invariant = { λ l. l.passed + length l.rest.now < 2 ^ 32 };
}

// The place of the first byte like this one, or the length.
fn byte_at(bytes: &[u8], byte: u8) -> usize
    ensures place { result ≡ position_or_len (λ b. b == byte) bytes.now }
    ensures bound { result ≤ length bytes.now }
{
    for (i, b) in bytes.iter().enumerate() {
        if *b == byte {
            return i;
        }
    }
    bytes.len()
}

// A line without the carriage return at its end.
fn without_return(line: &[u8]) -> &[u8]
    ensures { result.now ≡ strip_carriage_return line.now }
{
    match line {
        [front @ .., b'\r'] => front,
        _ => line,
    }
}

// The first line, and the text after it.
fn first_line(text: &[u8]) -> Option<(&[u8], &[u8])>
    ensures first { MatchOption result (lines text.now ≡ []) (λ x. lines text.now ≡ x.0.now ∷ lines x.1.now) }
    ensures shorter { IfSome result (λ x. length x.1.now < length text.now) }
{
    if text.is_empty() {
        return None;
    }
    let end = byte_at(text, b'\n');
    if end < text.len() {
        Some((without_return(&text[..end]), &text[end + 1..]))
    } else {
        Some((text, &text[end..]))
    }
}

// Whether a text begins with a byte order mark.
fn has_mark(text: &[u8]) -> bool
    ensures value { result ≡ has_mark text.now }
    ensures bound { IsTrue result → 3 ≤ length text.now }
{
    text.starts_with(&[0xef, 0xbb, 0xbf])
}

// Returns a text without the byte order mark at its begin.
#[tactic(auto, unfolding(crate::specs::Lines::without_mark))]
fn without_mark(text: &[u8]) -> &[u8]
    ensures value { result.now ≡ without_mark text.now }
    ensures shorter { length result.now ≤ length text.now }
{
    if has_mark(text) { &text[3..] } else { text }
}

impl<'a> Lines<'a> {
    /// Returns a cursor over the lines of a text, which stands before the first. A byte order mark at the
    /// begin is passed over.
    pub fn new(text: &'a [u8]) -> Lines<'a>
        requires { length text.now < 2 ^ 32 }
        ensures { result ≡ text_lines text.now }
    {
        Lines {
            passed: 0,
            rest: without_mark(text),
        }
    }

    /// Takes the next line; `None` at the end of the text.
    #[tactic(auto, unfolding(crate::specs::Lines::rest_lines))]
    pub fn next(&mut self) -> Option<Line<'a>>
        ensures { MatchOption result ((self.old ≡ []) × (self.new ≡ []))
            (λ l. self.old ≡ record { number = l.number; bytes = l.bytes.now } ∷ self.new) }
    {
        let (line, rest) = first_line(self.rest)?;
        self.passed += 1;
        self.rest = rest;
        Some(Line {
            number: self.passed,
            bytes: without_return(line),
        })
    }
}
