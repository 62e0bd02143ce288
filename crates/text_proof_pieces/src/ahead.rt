//! A cursor over lines that looks one line ahead.

ghost use Rattle.std.specs.Prelude.{◌≡◌, ◌+◌, ◌^◌, ◌<◌, [], ◌∷◌, true, None, Ok, length, MatchOption};
ghost use Rattle.text_lines.specs.Lines.{text_items};
ghost use Rattle.text_proof_pieces.specs.Ahead.{with_held, NoMult, NoShift};
ghost use Rattle.text_proof_pieces.specs.PriceLines.{is_mult};
ghost use Rattle.text_proof_pieces.specs.ShiftLines.{is_shift};

use crate::line::{is_mult, is_shift};
use model_rosters::Group;
use std::marker::Model;
use text_lines::{BadByte, Line, Lines};

/// A cursor over the lines of a text that have a word or a bad byte, which can look one line ahead.
/// A contract sees the list of what is still to come.
#[derive(Drop)]
pub struct Ahead<'a> {
    held: Option<Result<Line<'a>, BadByte>>,
    lines: Lines<'a>,
}

impl<'a> Model for Ahead<'a> {
    ghost use Rattle.text_proof_pieces.specs.Ahead.{with_held};
    ghost use Rattle.text_proof_pieces.specs.Items.{Items};

    ghost Value = { Items };

    ghost view = { λ a. with_held a.held a.lines };
}

// Takes the line that is held, or else the next one.
fn take<'a>(
    held: &mut Option<Result<Line<'a>, BadByte>>,
    lines: &mut Lines<'a>,
) -> Option<Result<Line<'a>, BadByte>>
    ensures free { held.new ≡ None }
    ensures value { MatchOption result ((with_held held.old lines.old ≡ []) × (lines.new ≡ []))
        (λ item. with_held held.old lines.old ≡ item ∷ lines.new) }
{
    match held.take() {
        Some(item) => Some(item),
        None => lines.next(),
    }
}

impl<'a> Ahead<'a> {
    /// Returns a cursor over the lines of a text, which stands before the first.
    pub fn new(text: &'a [u8]) -> Ahead<'a>
        requires { length text.now < 2 ^ 32 }
        ensures { result ≡ text_items text.now }
    {
        Ahead {
            held: None,
            lines: Lines::new(text),
        }
    }

    /// Takes the next line; `None` at the end of the text.
    pub fn next(&mut self) -> Option<Result<Line<'a>, BadByte>>
        ensures { MatchOption result ((self.old ≡ []) × (self.new ≡ []))
            (λ item. self.old ≡ item ∷ self.new) }
    {
        take(&mut self.held, &mut self.lines)
    }

    /// Takes the next line where it is one of a multiplier.
    pub fn next_mult(&mut self) -> Option<Line<'a>>
        ensures { MatchOption result ((self.new ≡ self.old) × NoMult self.old)
            (λ line. (self.old ≡ Ok line ∷ self.new) × (is_mult line.words ≡ true)) }
    {
        match take(&mut self.held, &mut self.lines) {
            Some(Ok(line)) => {
                if is_mult(&line) {
                    return Some(line);
                }
                self.held = Some(Ok(line));
                None
            }
            Some(Err(bad)) => {
                self.held = Some(Err(bad));
                None
            }
            None => None,
        }
    }

    /// Takes the next line where it is one of a shift.
    pub fn next_shift(&mut self, groups: &[Group]) -> Option<Line<'a>>
        ensures { MatchOption result ((self.new ≡ self.old) × NoShift groups.now self.old)
            (λ line. (self.old ≡ Ok line ∷ self.new) × (is_shift groups.now line.words ≡ true)) }
    {
        match take(&mut self.held, &mut self.lines) {
            Some(Ok(line)) => {
                if is_shift(groups, &line) {
                    return Some(line);
                }
                self.held = Some(Ok(line));
                None
            }
            Some(Err(bad)) => {
                self.held = Some(Err(bad));
                None
            }
            None => None,
        }
    }
}
