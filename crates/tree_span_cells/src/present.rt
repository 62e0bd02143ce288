//! The spans on which slots have sums.

ghost use Rattle.std.specs.Prelude.{◌≡◌, ◌<◌, ◌+◌, IfOk, length};
ghost use Rattle.tree_span_cells.specs.Periods.{IsNoted, Keeps};

use crate::periods::Periods;
use crate::slot::Span;
use model_rosters::Memory;
use std::alloc::Global;

/// The spans on which slots have sums, by their starts and by their ends. The end of a span is the
/// period after its last.
#[derive(Drop)]
pub struct Present {
    /// For each slot and start the ends of its spans.
    pub ends: Vec<Periods>,
    /// For each slot and end the starts of its spans.
    pub starts: Vec<Periods>,
}

impl Present {
    /// Returns no spans, with room for so many slots and periods together.
    ///
    /// # Errors
    ///
    /// `Memory` where memory runs out; nothing is kept then.
    pub fn new(alloc: Global, count: usize) -> Result<Present, Memory>
        ensures ends { IfOk result (λ p. length p.ends.items ≡ count) }
        ensures starts { IfOk result (λ p. length p.starts.items ≡ count) }
    {
        let ends = vec![in alloc; Periods::none(); count]?;
        let starts = vec![in alloc; Periods::none(); count]?;
        Ok(Present { ends, starts })
    }

    /// Forgets all spans.
    pub fn clear(&mut self)
        ensures ends { length self.new.ends.items ≡ length self.old.ends.items }
        ensures starts { length self.new.starts.items ≡ length self.old.starts.items }
    {
        self.ends.as_mut_slice().fill(Periods::none());
        self.starts.as_mut_slice().fill(Periods::none());
    }

    /// Notes a span of a slot, whose spots at its start and its end are given.
    pub fn note(&mut self, from: usize, to: usize, span: Span)
        requires from { from < length self.old.ends.items }
        requires to { to < length self.old.starts.items }
        requires span { span.start + span.len < 128 }
        ensures kept { Keeps self.old self.new }
        ensures noted { IsNoted self.new from to span.start (span.start + span.len) }
    {
        let end = span.start + span.len;
        self.ends[from] = self.ends[from].with(end);
        self.starts[to] = self.starts[to].with(span.start);
    }
}
