//! Spans, suffixes, slots and the layout's type.

ghost use Rattle.std.specs.Prelude.{◌≡◌, ◌<◌, ◌+◌};

use crate::SpanIndex;
use crate::chains::Chains;
use crate::lengths::Lengths;

/// A span of the day.
#[derive(Clone, Copy, Drop)]
pub struct Span {
    /// The first period, from 1.
    pub start: u8,
    /// How many periods there are.
    pub len: u8,
}

impl Span {
    /// Returns the period after the last one.
    pub fn end(self) -> u8
        requires { self.start + self.len < 256 }
        ensures { result ≡ self.start + self.len }
    {
        self.start + self.len
    }
}

/// The symbols of a rule's right side from one of them on.
#[derive(Clone, Copy, Drop)]
pub struct Suffix {
    /// The number of the rule, from 1.
    pub rule: u8,
    /// The position of the first symbol, from 0.
    pub from: u8,
}

/// What a slot holds the least sums of.
#[derive(Clone, Copy, Drop)]
pub enum Slot {
    /// The trees of a name.
    OfName(u8),
    /// The parts of a suffix of two or more symbols that is not a whole right side.
    OfSuffix(Suffix),
}

/// The slots of a grammar, and the spans of its day. Each span has one cell for each slot.
#[derive(Drop)]
pub struct Layout {
    /// The spans of the day.
    pub spans: SpanIndex,
    /// What each slot stands for, in the order in which the slots of a span are filled.
    pub slots: Vec<Slot>,
    /// The slot of each name.
    pub names: Vec<usize>,
    /// The slot of each rule's suffix from its second symbol on. Those of its shorter suffixes follow.
    pub suffixes: Vec<usize>,
    /// The rules of each name.
    pub chains: Chains,
    /// For each slot the lengths of the spans on which what it stands for can have trees.
    pub lengths: Vec<Lengths>,
}
