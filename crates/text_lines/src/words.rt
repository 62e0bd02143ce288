//! A cursor over words.

ghost use Rattle.std.specs.Prelude.{◌≡◌, ◌^◌, ◌<◌, [], ◌∷◌, length, drop, MatchOption, IfSome, slice_get};
ghost use Rattle.std.specs.Option.{option_copied};
ghost use Rattle.text_lines.specs.Words.{words};

use crate::scan::{blank_at, ink_at};
use std::marker::Model;

/// A cursor over the words of a line. A contract sees the list of the words still to come.
#[derive(Drop)]
pub struct Words<'a> {
    rest: &'a [u8],
}

impl<'a> Model for Words<'a> {
    ghost use Rattle.std.specs.Prelude.{ℕ, List};
    ghost use Rattle.text_lines.specs.Words.{words};

    ghost Value = { List (List ℕ) };

    ghost view = { λ w. words w.rest.now };
}

// The first word, and what follows it.
fn first_word(bytes: &[u8]) -> Option<(&[u8], &[u8])>
    ensures first { MatchOption result (words bytes.now ≡ [])
        (λ x. words bytes.now ≡ x.0.now ∷ words x.1.now) }
    ensures shorter { IfSome result (λ x. length x.1.now < length bytes.now) }
{
    let (_, text) = bytes.split_at(ink_at(bytes));
    if text.is_empty() {
        return None;
    }
    Some(text.split_at(blank_at(text)))
}

// How many words there are.
pub(crate) fn word_count(bytes: &[u8]) -> usize
    ensures { result ≡ length (words bytes.now) }
{
    let mut n = 0;
    let mut text = bytes;
    while let Some((_, rest)) = first_word(text) {
        n += 1;
        text = rest;
    }
    n
}

// The word at a place, from 0.
pub(crate) fn word_at(bytes: &[u8], k: usize) -> Option<&[u8]>
    ensures { option_copied result ≡ slice_get (words bytes.now) k }
{
    let mut text = bytes;
    for _ in 0..k {
        match first_word(text) {
            Some((_, rest)) => text = rest,
            None => return None,
        }
    }
    match first_word(text) {
        Some((word, _)) => Some(word),
        None => None,
    }
}

impl<'a> Words<'a> {
    /// Returns a cursor over the words of these bytes, which stands before the first.
    pub fn new(bytes: &'a [u8]) -> Words<'a>
        ensures { result ≡ words bytes.now }
    {
        Words { rest: bytes }
    }

    /// Takes the next word, a slice of the text; `None` after the last.
    pub fn next(&mut self) -> Option<&'a [u8]>
        ensures { MatchOption result ((self.old ≡ []) × (self.new ≡ [])) (λ w. self.old ≡ w.now ∷ self.new) }
    {
        match first_word(self.rest) {
            Some((word, rest)) => {
                self.rest = rest;
                Some(word)
            }
            None => None,
        }
    }

    /// Returns a cursor of its own at the same place. There are never `2^64` words.
    pub fn again(&self) -> Words<'a>
        ensures same { result ≡ self.now }
        ensures few { length self.now < 2 ^ 64 }
    {
        let _ = self.rest.len();
        Words { rest: self.rest }
    }

    /// Passes over so many words, or over all where there are fewer.
    pub fn skip(&mut self, count: usize)
        ensures { self.new ≡ drop count self.old }
    {
        for _ in 0..count {
            let _ = self.next();
        }
    }
}

/// Counts the words that are left, and takes them.
pub fn words_left(words: &mut Words<'_>) -> usize
    requires { length words.old < 2 ^ 64 }
    ensures { result ≡ length words.old }
{
    let mut n = 0;
    while let Some(_) = words.next() {
        n += 1;
    }
    n
}
