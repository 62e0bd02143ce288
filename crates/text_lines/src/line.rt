//! A line that has a word.

ghost use Rattle.std.specs.Prelude.{◌≡◌, length, slice_get};
ghost use Rattle.std.specs.Option.{option_copied};
ghost use Rattle.text_lines.specs.Words.{words};

use crate::words::{Words, word_at, word_count};
use std::marker::Model;

/// A line that has, before its comment, a byte that no line may hold.
#[derive(Clone, Copy, Debug, PartialEq, Eq, Drop)]
pub struct BadByte {
    /// The number of the line, from 1.
    pub line: u32,
}

/// A line that has a word. A contract sees its number and its words.
#[derive(Drop)]
pub struct Line<'a> {
    number: u32,
    body: &'a [u8],
}

impl<'a> Model for Line<'a> {
    ghost use Rattle.text_lines.specs.Words.{words};
    ghost use Rattle.text_lines.specs.Lines.{TextLine};

    ghost Value = { TextLine };

    ghost view = { λ l. record { number = l.number; words = words l.body.now } };
}

impl<'a> Line<'a> {
    // A line of the bytes before its comment.
    pub(crate) fn new(number: u32, body: &'a [u8]) -> Line<'a>
        ensures { result ≡ record { number = number; words = words body.now } }
    {
        Line { number, body }
    }

    /// Returns the line's number in the text, from 1.
    pub fn number(&self) -> u32
        ensures { result ≡ self.now.number }
    {
        self.number
    }

    /// Returns how many words there are. Scans the line.
    pub fn count(&self) -> usize
        ensures { result ≡ length self.now.words }
    {
        word_count(self.body)
    }

    /// Returns the word at a place, from 0, as a slice of the text; `None` past the last word. Scans
    /// the line from its front: read the words one after another by [`Line::words`].
    pub fn word(&self, k: usize) -> Option<&'a [u8]>
        ensures { option_copied result ≡ slice_get self.now.words k }
    {
        word_at(self.body, k)
    }

    /// Returns a cursor over the words, which stands before the first.
    pub fn words(&self) -> Words<'a>
        ensures { result ≡ self.now.words }
    {
        Words::new(self.body)
    }
}
