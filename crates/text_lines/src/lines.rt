//! A cursor over lines.

ghost use Rattle.std.specs.Prelude.{◌≡◌, ℕ, List, true, ◌+◌, ◌^◌, ◌<◌, [], ◌∷◌, length, MatchOption, IfSome};
ghost use Rattle.std.specs.List.{before_first, list_all};
ghost use Rattle.std.specs.Str.Lines.{lines, strip_carriage_return};
ghost use Rattle.text_lines.specs.Lines.{is_line_byte, before_comment, rest_items, text_items};
ghost use Rattle.text_lines.specs.Written.{are_written, written, numbered};

use crate::line::{BadByte, Line};
use crate::scan::byte_at;
use crate::words::Words;
use std::marker::Model;

/// A cursor over the lines of a text that have a word or a bad byte. A contract sees the list of
/// what is still to come.
#[derive(Drop)]
pub struct Lines<'a> {
    passed: u32,
    rest: &'a [u8],
}

impl<'a> Model for Lines<'a> {
    ghost use Rattle.std.specs.Prelude.{◌+◌, ◌^◌, ◌<◌, length, List, Result};
    ghost use Rattle.text_lines.specs.declared.line.BadByte.{BadByte};
    ghost use Rattle.text_lines.specs.Lines.{TextLine, rest_items};

    ghost Value = { List (Result TextLine BadByte) };

    ghost view = { λ l. rest_items (l.passed + 1) l.rest.now };

    ghost invariant = { λ l. l.passed + length l.rest.now < 2 ^ 32 };
}

// A line that ends in a line feed, without the carriage return at its end.
fn without_return(line: &[u8]) -> &[u8]
    ensures { result.now ≡ strip_carriage_return line.now }
{
    match line {
        [front @ .., b'\r'] => front,
        _ => line,
    }
}

// The first line, and the text after it.
fn first_line(text: &[u8]) -> Option<(&[u8], &[u8])>
    ensures first { MatchOption result (lines text.now ≡ []) (λ x. lines text.now ≡ x.0.now ∷ lines x.1.now) }
    ensures shorter { IfSome result (λ x. length x.1.now < length text.now) }
{
    if text.is_empty() {
        return None;
    }
    let end = byte_at(text, b'\n');
    if end < text.len() {
        Some((without_return(&text[..end]), &text[end + 1..]))
    } else {
        Some((text, &text[end..]))
    }
}

// Returns the bytes of a line before its comment.
fn without_comment(line: &[u8]) -> &[u8]
    ensures { result.now ≡ before_comment line.now }
{
    &line[..byte_at(line, b'#')]
}

// Says whether all bytes are such as a line may hold.
fn may_stand(body: &[u8]) -> bool
    ensures { result ≡ list_all is_line_byte body.now }
{
    body.iter().all(|b| (32 <= *b && *b <= 126) || *b == b'\t')
}

// What the next line that gives something gives, the number of lines up to it, and the text after it.
fn next_item(passed: u32, text: &[u8]) -> Option<(Result<Line<'_>, BadByte>, u32, &[u8])>
    requires { passed + length text.now < 2 ^ 32 }
    ensures item { MatchOption result (rest_items (passed + 1) text.now ≡ [])
        (λ x. rest_items (passed + 1) text.now ≡ x.0 ∷ rest_items (x.1 + 1) x.2.now) }
    ensures within { IfSome result (λ x. x.1 + length x.2.now < 2 ^ 32) }
{
    let mut passed = passed;
    let mut text = text;
    while let Some((line, rest)) = first_line(text) {
        let body = without_comment(line);
        let number = passed + 1;
        if !may_stand(body) {
            return Some((Err(BadByte { line: number }), number, rest));
        }
        if let Some(_) = Words::new(body).next() {
            return Some((Ok(Line::new(number, body)), number, rest));
        }
        passed = number;
        text = rest;
    }
    None
}

impl<'a> Lines<'a> {
    /// Returns a cursor over the lines of a text, which stands before the first.
    pub fn new(text: &'a [u8]) -> Lines<'a>
        requires { length text.now < 2 ^ 32 }
        ensures { result ≡ text_items text.now }
    {
        Lines {
            passed: 0,
            rest: text,
        }
    }

    /// Takes the next line that has a word or a bad byte; `None` at the end of the text. After a bad
    /// byte the next call goes on with the following line.
    pub fn next(&mut self) -> Option<Result<Line<'a>, BadByte>>
        ensures { MatchOption result ((self.old ≡ []) × (self.new ≡ []))
            (λ item. self.old ≡ item ∷ self.new) }
    {
        match next_item(self.passed, self.rest) {
            Some((item, passed, rest)) => {
                self.passed = passed;
                self.rest = rest;
                Some(item)
            }
            None => None,
        }
    }
}

/// States a law: the lines of a written text, from line `k` on, are the lines that were written,
/// where each has a word, and no word holds a blank, a `#` or any other byte that is not printable.
pub fn written_again()
    ensures { (k : ℕ) (ls : List (List (List ℕ))) → list_all are_written ls ≡ true
        → rest_items k (written ls) ≡ numbered k ls }
{}
