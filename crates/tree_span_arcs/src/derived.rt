//! What derives, by the cells of free prices.

ghost use Rattle.std.specs.Prelude.{IfOk};
ghost use Rattle.model_rosters.specs.Sound.{IsSound};
ghost use Rattle.tree_span_arcs.specs.DayArcs.{IsDerivedOf};

use crate::free::Free;
use crate::free_cells::FreeCells;
use model_rosters::{Grammar, Memory};
use std::alloc::Global;
use tree_span_cells::{Layout, fill_cells, layout_of};

/// The slots of a grammar, and on which spans their names and suffixes derive.
#[derive(Drop)]
pub struct Derived {
    /// The slots.
    pub layout: Layout,
    /// The cells for free prices, which tell what derives.
    pub free: FreeCells,
}

impl Derived {
    /// Returns what derives by the rules of a sound grammar.
    ///
    /// # Errors
    ///
    /// `Memory` where memory runs out; nothing is kept then.
    pub fn new(alloc: Global, grammar: &Grammar) -> Result<Derived, Memory>
        requires { IsSound grammar.now }
        ensures { IfOk result (λ d. IsDerivedOf grammar.now d.layout d.free) }
    {
        let layout = layout_of(alloc, grammar)?;
        let mut free = FreeCells::for_layout(alloc, grammar, &layout)?;
        fill_cells(grammar, &Free, &layout, &mut free);
        Ok(Derived { layout, free })
    }
}
