//! The table, and its calls.

ghost use Rattle.std.specs.Prelude.{◌≡◌, ◌<◌, IfOk, length};
ghost use Rattle.model_rosters.specs.declared.grammar.Grammar.{Grammar as Rules};
ghost use Rattle.model_rosters.specs.Room.{most_uses};
ghost use Rattle.model_rosters.specs.Sound.{IsSound};
ghost use Rattle.model_rosters.specs.Trees.{IsDayTree, IsTreeOf};
ghost use Rattle.model_rosters.specs.Sums.{PriceView, IsLeast, tree_sum};
ghost use Rattle.model_rosters.specs.tree_laws.LeastTrees.{HasDaySum, HoldsLeastTree};
ghost use Rattle.tree_span_table.specs.Tables.{IsMadeFor, IsFilled};

use crate::walk::write_tree;
use model_rosters::{Grammar, LetterPrice, Memory, Sym, TreeRoom};
use std::alloc::Global;
use std::marker::Model;
use tree_span_cells::{Layout, Span, SumCells, fill_cells, layout_of, sum_at};

/// The least sums of all trees of a grammar's names, and of the parts of its rules' suffixes, on all
/// spans of the day.
#[derive(Drop)]
pub struct Table {
    layout: Layout,
    cells: SumCells,
}

impl Model for Table {
    ghost use Rattle.tree_span_table.specs.Tables.{TableView};

    ghost Value = { TableView };

    ghost view = { λ t. record { layout = t.layout; cells = t.cells } };
}

impl Table {
    /// Returns a table for the trees of a sound grammar. Later calls take the same grammar.
    ///
    /// It has taken the memory for all of them: 16 bytes for each name, and for each suffix of two or
    /// more symbols that is not a whole right side, on each span of the day, and 32 bytes for each of
    /// these at each period.
    ///
    /// # Errors
    ///
    /// `Memory` where memory runs out; nothing is kept then.
    pub fn for_instance(alloc: Global, grammar: &Grammar) -> Result<Table, Memory>
        requires { IsSound grammar.now }
        ensures { IfOk result (IsMadeFor grammar.now) }
    {
        let layout = layout_of(alloc, grammar)?;
        let cells = SumCells::for_layout(alloc, grammar, &layout)?;
        Ok(Table { layout, cells })
    }

    /// Fills the table for the prices, and returns the least sum over all trees of the start name on
    /// the day; `None` exactly where no such tree has a sum. Takes no memory.
    pub fn least<P: LetterPrice>(&mut self, grammar: &Grammar, prices: &P) -> Option<i128>
        requires sound { IsSound grammar.now }
        requires made { IsMadeFor grammar.now self.old }
        ensures least { IsLeast (IsDayTree grammar.now) (tree_sum (P.view prices.now) 1) result }
        ensures filled { IsFilled grammar.now (P.view prices.now) self.new }
        ensures kept { (g : Rules) → IsMadeFor g self.old → IsMadeFor g self.new }
    {
        fill_cells(grammar, prices, &self.layout, &mut self.cells);
        self.value(grammar, grammar.start)
    }

    /// Returns the least sum over all trees of a name on the day, under the prices for which the
    /// table is filled; `None` exactly where no such tree has a sum. Takes no memory.
    pub fn value(&self, grammar: &Grammar, name: u8) -> Option<i128>
        requires sound { IsSound grammar.now }
        requires made { IsMadeFor grammar.now self.now }
        requires name { name < length grammar.now.names }
        ensures { (p : PriceView) → IsFilled grammar.now p self.now
            → IsLeast (IsTreeOf grammar.now name) (tree_sum p 1) result }
    {
        let day = Span {
            start: 1,
            len: grammar.periods,
        };
        let slot = self.layout.names[name as usize];
        sum_at(&self.layout, &self.cells, slot, day)
    }

    /// Leaves in the room the steps of a tree of the day of least sum, under the prices for which
    /// the table is filled. Takes no memory.
    pub fn tree<P: LetterPrice>(&self, grammar: &Grammar, prices: &P, room: &mut TreeRoom)
        requires sound { IsSound grammar.now }
        requires made { IsMadeFor grammar.now self.now }
        requires filled { IsFilled grammar.now (P.view prices.now) self.now }
        requires sum { HasDaySum grammar.now (P.view prices.now) }
        requires room { room.old.most ≡ most_uses grammar.now }
        ensures tree { HoldsLeastTree grammar.now (P.view prices.now) room.new }
        ensures kept { room.new.most ≡ room.old.most }
    {
        room.clear();
        let day = Span {
            start: 1,
            len: grammar.periods,
        };
        let start = Sym::Name(grammar.start);
        write_tree(grammar, prices, &self.layout, &self.cells, start, day, room);
    }
}
