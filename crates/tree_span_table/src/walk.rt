//! The steps of a tree of least sum.

ghost use Rattle.tree_span_table.specs.Walks.{AsksTree, AsksParts, WritesTree, WritesParts};
ghost use Rattle.std.specs.Prelude.{drop};

use model_rosters::{Grammar, LetterPrice, Rule, Step, Sym, TreeRoom, rule_of};
use tree_span_cells::{Layout, Span, Suffix, SumCells, least_part, least_rule};

/// Adds the steps of a tree of least sum of a symbol on a span. Takes no memory.
#[cycle(walk)]
pub fn write_tree<P: LetterPrice>(
    grammar: &Grammar,
    prices: &P,
    layout: &Layout,
    cells: &SumCells,
    symbol: Sym,
    span: Span,
    room: &mut TreeRoom,
)
    requires { AsksTree grammar.now (P.view prices.now) layout.now cells.now symbol span.start span.len
        room.old }
    ensures { WritesTree grammar.now (P.view prices.now) symbol span.start span.len room.old room.new }
{
    let Sym::Name(name) = symbol else {
        return;
    };
    let number = least_rule(grammar, prices, layout, cells, name, span).number;
    room.push(Step {
        rule: number,
        start: span.start,
        len: span.len,
    });
    let rule = rule_of(grammar, number);
    let whole = Suffix {
        rule: number,
        from: 0,
    };
    write_parts(grammar, prices, layout, cells, rule, whole, span, room);
}

// Adds the steps of parts of least sum of a suffix on a span.
#[cycle(walk)]
fn write_parts<P: LetterPrice>(
    grammar: &Grammar,
    prices: &P,
    layout: &Layout,
    cells: &SumCells,
    rule: &Rule,
    suffix: Suffix,
    span: Span,
    room: &mut TreeRoom,
)
    requires { AsksParts grammar.now (P.view prices.now) layout.now cells.now rule.now suffix.rule suffix.from
        span.start span.len room.old }
    ensures { WritesParts grammar.now (P.view prices.now) suffix.rule suffix.from
        (drop suffix.from rule.now.right)
        span.start span.len room.old room.new }
{
    let right = rule.right.as_slice();
    let from = suffix.from as usize;
    let symbol = right[from];
    if from + 1 == right.len() {
        write_tree(grammar, prices, layout, cells, symbol, span, room);
        return;
    }
    let part = least_part(grammar, prices, layout, cells, rule, suffix, span).number;
    let first = Span {
        start: span.start,
        len: part,
    };
    let others = Span {
        start: span.start + part,
        len: span.len - part,
    };
    let next = Suffix {
        rule: suffix.rule,
        from: suffix.from + 1,
    };
    write_tree(grammar, prices, layout, cells, symbol, first, room);
    write_parts(grammar, prices, layout, cells, rule, next, others, room);
}
