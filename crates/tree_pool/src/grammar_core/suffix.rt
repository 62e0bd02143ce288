//! A suffix of a rule on a span, and its arcs.

ghost use Rattle.std.specs.Prelude.{◌≡◌, ◌+◌, ◌-◌, ◌<◌, ◌≤◌};
ghost use Rattle.tree_pool.specs.grammar_core.Walks.{has_arc as has_own_arc};

use model_rosters::{ArcKey, Step};

/// A suffix of a rule's right side on a span.
#[derive(Clone, Copy)]
pub struct Suffix {
    /// The number of the rule, from 1.
    pub rule: u8,
    /// The position in the right side, from 0, at which the suffix begins.
    pub from: u8,
    /// The first period of the span.
    pub start: u8,
    /// How many periods the span has.
    pub len: u8,
}

impl Suffix {
    /// Returns the whole right side of a rule use.
    pub fn of(step: Step) -> Suffix
        ensures { result ≡ record { rule = step.rule; from = 0; start = step.start; len = step.len } }
    {
        Suffix {
            rule: step.rule,
            from: 0,
            start: step.start,
            len: step.len,
        }
    }

    /// Returns the arc of this suffix whose first part covers so many periods.
    pub fn arc(self, part: u8) -> ArcKey
        ensures { result ≡ record {
          rule = self.rule;
          suffix = self.from;
          start = self.start;
          len = self.len;
          part = part;
        } }
    {
        ArcKey {
            rule: self.rule,
            suffix: self.from,
            start: self.start,
            len: self.len,
            part,
        }
    }

    /// Returns what follows a first part of so many periods.
    pub fn after(self, part: u8) -> Suffix
        requires from { self.from < 8 }
        requires within { part ≤ self.len }
        requires day { self.start + self.len ≤ 97 }
        ensures { result ≡ record {
          rule = self.rule;
          from = self.from + 1;
          start = self.start
              + part;
          len = self.len - part;
        } }
    {
        Suffix {
            rule: self.rule,
            from: self.from + 1,
            start: self.start + part,
            len: self.len - part,
        }
    }
}

/// Returns whether the part at a position of so many symbols has an arc: the last part has none,
/// save where it is the only one.
pub fn has_arc(from: usize, symbols: usize) -> bool
    requires { from < 256 }
    ensures { result ≡ has_own_arc from symbols }
{
    from == 0 || from + 1 < symbols
}
