//! The marginals, and their calls.

ghost use Rattle.std.specs.Prelude.{ℕ, ◌≡◌, ◌≤◌, ◌<◌, None, IfOk};
ghost use Rattle.model_rosters.specs.declared.grammar.Grammar.{Grammar as Rules};
ghost use Rattle.model_rosters.specs.Sound.{IsSound};
ghost use Rattle.model_rosters.specs.Sums.{IsLeast, PriceView, tree_sum};
ghost use Rattle.model_rosters.specs.Trees.{IsDayTree};
ghost use Rattle.tree_span_cells.specs.Cells.{AreFilled, IsReady};
ghost use Rattle.tree_span_table.specs.next_codes.Views.{IsMadeFor, AreMarginals, value_at};

use crate::next_codes::slots::fill_totals;
use crate::next_codes::totals::Totals;
use model_rosters::{Grammar, LetterPrice, Memory};
use std::alloc::Global;
use std::marker::Model;
use tree_span_cells::{Layout, Span, SumCells, fill_cells, layout_of, sum_at};

/// For each code and period the least sum of a tree of the day with this code at this period.
#[derive(Drop)]
pub struct Marginals {
    layout: Layout,
    inside: SumCells,
    totals: Totals,
    codes: usize,
    periods: usize,
}

impl Model for Marginals {
    ghost use Rattle.std.specs.Prelude.{◌≡◌, ◌*◌, length};
    ghost use Rattle.tree_span_table.specs.next_codes.Views.{MarginalsView};

    ghost Value = { MarginalsView };

    ghost view = { λ m. record {
      layout = m.layout;
      inside = m.inside;
      totals = m.totals;
      codes = m.codes;
      periods = m.periods;
    } };

    ghost invariant = { λ m. length m.totals.letters.items ≡ m.codes * m.periods };
}

// Returns the least sum over all trees of the day, for which the cells are filled.
fn day_least(grammar: &Grammar, layout: &Layout, inside: &SumCells) -> Option<i128>
    requires sound { IsSound grammar.now }
    requires ready { IsReady grammar.now layout.now inside.now }
    ensures { (p : PriceView) → AreFilled grammar.now p layout.now inside.now
        → IsLeast (IsDayTree grammar.now) (tree_sum p 1) result }
{
    let day = Span {
        start: 1,
        len: grammar.periods,
    };
    let slot = layout.names[grammar.start as usize];
    sum_at(layout, inside, slot, day)
}

impl Marginals {
    /// Returns marginals for the trees of a sound grammar, none of which has a value yet. Later calls take
    /// the same grammar.
    ///
    /// It has taken the memory for all of them: 32 bytes for each name, and for each suffix of two or more
    /// symbols that is not a whole right side, on each span of the day, 32 bytes for each of these at each
    /// period, and 16 bytes for each code at each period.
    ///
    /// # Errors
    ///
    /// `Memory` where memory runs out; nothing is kept then.
    pub fn for_instance(alloc: Global, grammar: &Grammar) -> Result<Marginals, Memory>
        requires { IsSound grammar.now }
        ensures made { IfOk result (IsMadeFor grammar.now) }
        ensures none { IfOk result (λ m. (c i : ℕ) → value_at m c i ≡ None) }
    {
        let layout = layout_of(alloc, grammar)?;
        let inside = SumCells::for_layout(alloc, grammar, &layout)?;
        let totals = Totals::for_layout(alloc, grammar, &layout)?;
        Ok(Marginals {
            layout,
            inside,
            totals,
            codes: grammar.codes.len(),
            periods: grammar.periods as usize,
        })
    }

    /// Makes the value of each code and period the least sum under the prices over the trees of the day
    /// with this code at this period, and returns the least sum over all trees of the day; `None` exactly
    /// where no such tree has a sum. Takes no memory.
    pub fn fill<P: LetterPrice>(&mut self, grammar: &Grammar, prices: &P) -> Option<i128>
        requires sound { IsSound grammar.now }
        requires made { IsMadeFor grammar.now self.old }
        ensures least { IsLeast (IsDayTree grammar.now) (tree_sum (P.view prices.now) 1) result }
        ensures marginals { AreMarginals grammar.now (P.view prices.now) self.new }
        ensures kept { (g : Rules) → IsMadeFor g self.old → IsMadeFor g self.new }
        ensures codes { self.new.codes ≡ self.old.codes }
        ensures periods { self.new.periods ≡ self.old.periods }
    {
        fill_cells(grammar, prices, &self.layout, &mut self.inside);
        fill_totals(
            grammar,
            prices,
            &self.layout,
            &self.inside,
            &mut self.totals,
        );
        day_least(grammar, &self.layout, &self.inside)
    }

    /// Returns the value of a code, by its position from 0, and a period from 1.
    pub fn at(&self, code: u8, period: u8) -> Option<i128>
        requires code { code < self.now.codes }
        requires first { 1 ≤ period }
        requires last { period ≤ self.now.periods }
        ensures { result ≡ value_at self.now code period }
    {
        let place = code as usize * self.periods + (period as usize - 1);
        self.totals.letters[place].sum()
    }
}
