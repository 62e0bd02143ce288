//! A cursor over a slice.

ghost use Rattle.std.specs.Prelude.{◌≡◌, [], ◌∷◌, List as Items, MatchOption};

use std::marker::Model;

/// A cursor over a slice. A contract sees the list of the items still to come.
#[derive(Drop)]
pub struct Cursor<'a, T> {
    rest: &'a [T],
}

impl<'a, T> Model for Cursor<'a, T> {
    ghost use Rattle.std.specs.Prelude.{List as Items};

    ghost Value = { Items T };

    ghost view = { λ c. c.rest.now };
}

impl<'a, T: Copy> Cursor<'a, T> {
    /// Returns a cursor that stands before the first item.
    pub fn new(rest: &'a [T]) -> Self
        ensures { result ≡ rest.now }
    {
        Cursor { rest }
    }

    /// Returns the next item without taking it; `None` after the last.
    pub fn peek(&self) -> Option<T>
        ensures { MatchOption result (self.now ≡ []) (λ item. (rest : Items T) × (self.now ≡ item ∷ rest)) }
    {
        match self.rest {
            [item, ..] => Some(*item),
            [] => None,
        }
    }

    /// Takes the next item; `None` after the last.
    pub fn next(&mut self) -> Option<T>
        ensures { MatchOption result ((self.old ≡ []) × (self.new ≡ []))
            (λ item. self.old ≡ item ∷ self.new) }
    {
        match self.rest {
            [item, rest @ ..] => {
                self.rest = rest;
                Some(*item)
            }
            [] => None,
        }
    }
}
