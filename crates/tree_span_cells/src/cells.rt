//! The trait of cells.

ghost use Rattle.std.specs.Prelude.{◌≡◌, ◌<◌, ◌+◌, ℤ, Option, None, length, slice_index_or, slice_set};
ghost use Rattle.tree_span_cells.specs.Cells.{Held};
ghost use Rattle.tree_span_cells.specs.Numbers.{number_of};
ghost use Rattle.tree_span_cells.specs.Periods.{IsNoted, Keeps};

use crate::present::Present;
use crate::slot::Span;

/// The least sums of a table by place, and the spans on which slots have them.
pub trait Cells {
    // The sum at each place, and the spans.
    ghost held: { Self → Held };

    // Which sums a place can hold.
    ghost can_hold: { Option ℤ → Type 0 };

    /// Returns the sum at a place.
    fn sum(&self, place: usize) -> Option<i128>
        requires { place < length (held self.now).sums }
        ensures { result ≡ slice_index_or (held self.now).sums place None };

    /// Returns the number of the sum at a place.
    fn number(&self, place: usize) -> i128
        requires { place < length (held self.now).sums }
        ensures { result ≡ number_of (slice_index_or (held self.now).sums place None) };

    /// Puts a sum that the cells can hold at a place.
    fn set(&mut self, place: usize, sum: Option<i128>)
        requires place { place < length (held self.old).sums }
        requires sum { can_hold sum }
        ensures { held self.new ≡ record (held self.old)
            { sums = slice_set (held self.old).sums place sum } };

    /// Returns the spans on which slots have sums.
    fn present(&self) -> &Present
        ensures { result.now ≡ (held self.now).present };

    /// Notes a span of a slot, whose spots at its start and its end are given.
    fn note(&mut self, from: usize, to: usize, span: Span)
        requires from { from < length (held self.old).present.ends.items }
        requires to { to < length (held self.old).present.starts.items }
        requires span { span.start + span.len < 128 }
        ensures sums { (held self.new).sums ≡ (held self.old).sums }
        ensures kept { Keeps (held self.old).present (held self.new).present }
        ensures noted { IsNoted (held self.new).present from to span.start (span.start + span.len) };

    /// Forgets all spans.
    fn clear(&mut self)
        ensures sums { (held self.new).sums ≡ (held self.old).sums }
        ensures ends { length (held self.new).present.ends.items ≡ length (held self.old).present.ends.items }
        ensures starts { length (held self.new).present.starts.items ≡ length
            (held self.old).present.starts.items };
}
