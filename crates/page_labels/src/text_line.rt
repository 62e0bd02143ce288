//! A text's lines, in UTF-8.

ghost use Rattle.std.specs.Prelude.{◌≡◌, ◌+◌, ◌^◌, ◌<◌, ◌≤◌, ◌==◌, [], ◌∷◌, length, MatchOption, IfSome, IsTrue};
ghost use Rattle.std.specs.List.{list_all, position_or_len};
ghost use Rattle.std.specs.Str.{chars};
ghost use Rattle.std.specs.Str.Lines.{lines, strip_carriage_return};
ghost use Rattle.text_lines.specs.Lines.{before_comment};
ghost use Rattle.text_lines.specs.Words.{words};
ghost use Rattle.page_labels.specs.TextLines.{has_mark, is_body, is_control, is_turn, may_stand, rest_items, text_items, without_mark};

use std::marker::Model;
use text_lines::{BadByte, Words};

/// A line that has a word. A contract sees its number and its words.
#[derive(Drop)]
pub(crate) struct Line<'a> {
    number: u32,
    body: &'a [u8],
}

impl<'a> Model for Line<'a> {
    ghost use Rattle.text_lines.specs.Words.{words};
    ghost use Rattle.text_lines.specs.Lines.{TextLine};

    ghost Value = { TextLine };

    ghost view = { λ l. record { number = l.number; words = words l.body.now } };
}

impl<'a> Line<'a> {
    // A line of the bytes before its comment.
    fn new(number: u32, body: &'a [u8]) -> Line<'a>
        ensures { result ≡ record { number = number; words = words body.now } }
    {
        Line { number, body }
    }

    /// Returns the line's number in the text, from 1.
    pub(crate) fn number(&self) -> u32
        ensures { result ≡ self.now.number }
    {
        self.number
    }

    /// Returns a cursor over the words, which stands before the first.
    pub(crate) fn words(&self) -> Words<'a>
        ensures { result ≡ self.now.words }
    {
        Words::new(self.body)
    }
}

/// A cursor over the lines of a labels text that have a word or a bad byte. A contract sees the list of what
/// is still to come.
#[derive(Drop)]
pub(crate) struct Lines<'a> {
    passed: u32,
    rest: &'a [u8],
}

impl<'a> Model for Lines<'a> {
    ghost use Rattle.std.specs.Prelude.{◌+◌, ◌^◌, ◌<◌, length, List, Result};
    ghost use Rattle.text_lines.specs.declared.line.BadByte.{BadByte};
    ghost use Rattle.text_lines.specs.Lines.{TextLine};
    ghost use Rattle.page_labels.specs.TextLines.{rest_items};

    ghost Value = { List (Result TextLine BadByte) };

    ghost view = { λ l. rest_items (l.passed + 1) l.rest.now };

    ghost invariant = { λ l. l.passed + length l.rest.now < 2 ^ 32 };
}

// The place of the first byte like this one, or the length.
fn byte_at(bytes: &[u8], byte: u8) -> usize
    ensures place { result ≡ position_or_len (λ b. b == byte) bytes.now }
    ensures bound { result ≤ length bytes.now }
{
    for (i, b) in bytes.iter().enumerate() {
        if *b == byte {
            return i;
        }
    }
    bytes.len()
}

// A line that ends in a line feed, without the carriage return at its end.
fn without_return(line: &[u8]) -> &[u8]
    ensures { result.now ≡ strip_carriage_return line.now }
{
    match line {
        [front @ .., b'\r'] => front,
        _ => line,
    }
}

// The first line, and the text after it.
fn first_line(text: &[u8]) -> Option<(&[u8], &[u8])>
    ensures first { MatchOption result (lines text.now ≡ []) (λ x. lines text.now ≡ x.0.now ∷ lines x.1.now) }
    ensures shorter { IfSome result (λ x. length x.1.now < length text.now) }
{
    if text.is_empty() {
        return None;
    }
    let end = byte_at(text, b'\n');
    if end < text.len() {
        Some((without_return(&text[..end]), &text[end + 1..]))
    } else {
        Some((text, &text[end..]))
    }
}

// Returns the bytes of a line before its comment.
fn without_comment(line: &[u8]) -> &[u8]
    ensures { result.now ≡ before_comment line.now }
{
    &line[..byte_at(line, b'#')]
}

// Whether a character is a control character.
fn is_control(code: u32) -> bool
    ensures { result ≡ is_control code }
{
    code < 0x20 || (0x7f <= code && code <= 0x9f)
}

// Whether a character ends a line or turns the direction of a text.
fn is_turn(code: u32) -> bool
    ensures { result ≡ is_turn code }
{
    (0x2028 <= code && code <= 0x202e) || (0x2066 <= code && code <= 0x2069)
}

// Whether a line may hold a character before its comment.
fn may_stand(code: u32) -> bool
    ensures { result ≡ may_stand code }
{
    code == 9 || (!is_control(code) && !is_turn(code))
}

// Whether a line may hold all characters of a text.
fn may_all_stand(text: &str) -> bool
    ensures { result ≡ list_all may_stand (chars text.now) }
{
    let mut passed: usize = 0;
    for c in text.chars() {
        if !may_stand(c as u32) {
            return false;
        }
        passed += 1;
    }
    true
}

// Whether bytes are the UTF-8 of characters that a line may hold.
fn is_body(bytes: &[u8]) -> bool
    ensures { result ≡ is_body bytes.now }
{
    match std::str::from_utf8(bytes) {
        Ok(text) => may_all_stand(text),
        Err(_) => false,
    }
}

// What the next line that gives something gives, the number of lines up to it, and the text after it.
fn next_item(passed: u32, text: &[u8]) -> Option<(Result<Line<'_>, BadByte>, u32, &[u8])>
    requires { passed + length text.now < 2 ^ 32 }
    ensures item { MatchOption result (rest_items (passed + 1) text.now ≡ [])
        (λ x. rest_items (passed + 1) text.now ≡ x.0 ∷ rest_items (x.1 + 1) x.2.now) }
    ensures within { IfSome result (λ x. x.1 + length x.2.now < 2 ^ 32) }
{
    let mut passed = passed;
    let mut text = text;
    while let Some((line, rest)) = first_line(text) {
        let body = without_comment(line);
        let number = passed + 1;
        if !is_body(body) {
            return Some((Err(BadByte { line: number }), number, rest));
        }
        if let Some(_) = Words::new(body).next() {
            return Some((Ok(Line::new(number, body)), number, rest));
        }
        passed = number;
        text = rest;
    }
    None
}

// Whether a text begins with a byte order mark.
fn has_mark(text: &[u8]) -> bool
    ensures value { result ≡ has_mark text.now }
    ensures bound { IsTrue result → 3 ≤ length text.now }
{
    text.starts_with(&[0xef, 0xbb, 0xbf])
}

// Returns a text without the byte order mark at its start.
#[tactic(auto, unfolding(crate::specs::TextLines::without_mark))]
fn without_mark(text: &[u8]) -> &[u8]
    ensures value { result.now ≡ without_mark text.now }
    ensures shorter { length result.now ≤ length text.now }
{
    if has_mark(text) { &text[3..] } else { text }
}

impl<'a> Lines<'a> {
    /// Returns a cursor over the lines of a text, which stands before the first.
    pub(crate) fn new(text: &'a [u8]) -> Lines<'a>
        requires { length text.now < 2 ^ 32 }
        ensures { result ≡ text_items text.now }
    {
        Lines {
            passed: 0,
            rest: without_mark(text),
        }
    }

    /// Takes the next line that has a word or a bad byte; `None` at the end of the text.
    pub(crate) fn next(&mut self) -> Option<Result<Line<'a>, BadByte>>
        ensures { MatchOption result ((self.old ≡ []) × (self.new ≡ []))
            (λ item. self.old ≡ item ∷ self.new) }
    {
        match next_item(self.passed, self.rest) {
            Some((item, passed, rest)) => {
                self.passed = passed;
                self.rest = rest;
                Some(item)
            }
            None => None,
        }
    }
}
