//! Symbols that are still to be derived on a span.

ghost use Rattle.std.specs.Prelude.{◌≡◌, ◌≤◌, ◌<◌, ◌+◌, Some, length, slice_get};
ghost use Rattle.tree_ranking.specs.Frames.{IsFrame, right_of, after_part};

use model_rosters::{Grammar, Sym, rule_of};
use tree_span_cells::{Span, Suffix};

/// Symbols of a rule's right side from one of them on, which are still to be derived on a span. The
/// number 0 in place of a rule's stands for two start names; so its place 1 is the start name alone.
#[derive(Clone, Copy, Drop)]
pub struct Frame {
    /// The symbols.
    pub suffix: Suffix,
    /// The span, which is empty where there is no symbol.
    pub span: Span,
}

impl Frame {
    /// Returns what is left after a first part of so many periods.
    pub fn after(self, part: u8) -> Frame
        requires part { part ≤ self.span.len }
        requires place { self.suffix.from < 255 }
        requires day { self.span.start + self.span.len < 256 }
        ensures { result ≡ after_part self part }
    {
        Frame {
            suffix: Suffix {
                rule: self.suffix.rule,
                from: self.suffix.from + 1,
            },
            span: Span {
                start: self.span.start + part,
                len: self.span.len - part,
            },
        }
    }

    /// Returns the first symbol, if there is one.
    pub fn symbol(self, grammar: &Grammar) -> Option<Sym>
        requires { IsFrame grammar.now self }
        ensures { result ≡ slice_get (right_of grammar.now self.suffix.rule) self.suffix.from }
    {
        let from = self.suffix.from as usize;
        if self.suffix.rule == 0 {
            return if from == 1 {
                Some(Sym::Name(grammar.start))
            } else {
                None
            };
        }
        let right = rule_of(grammar, self.suffix.rule).right.as_slice();
        if from < right.len() {
            Some(right[from])
        } else {
            None
        }
    }
}
