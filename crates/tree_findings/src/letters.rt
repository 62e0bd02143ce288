//! The codes that a shift has in a period.

ghost use Rattle.std.specs.Prelude.{ℕ, ◌≡◌, ◌<◌, length};
ghost use Rattle.model_rosters.specs.Sound.{IsSound};
ghost use Rattle.model_rosters.specs.arc_laws.OrNodes.{symbol_node};
ghost use Rattle.tree_span_arcs.specs.Shapes.{IsShaped};
ghost use Rattle.tree_findings.specs.Marks.{Sets, IsMarkOf, IsCodeOf, TellsLetter, TellsCode};

use crate::marks::set;
use model_rosters::{ArcKey, Grammar, Sym, rule_of};

// Marks a code with the period in which its letter stands.
fn mark_symbol(letters: &mut [bool], codes: &mut [bool], symbol: Sym, period: u8)
    requires letters { length letters.old ≡ 65536 }
    requires codes { length codes.old ≡ 256 }
    ensures letters { (len : ℕ) → Sets (IsMarkOf (symbol_node symbol period len)) letters.old
        letters.new }
    ensures codes { (len : ℕ) → Sets (IsCodeOf (symbol_node symbol period len)) codes.old codes.new }
{
    match symbol {
        Sym::Code(code) => {
            set(letters, code as usize * 256 + period as usize);
            set(codes, code as usize);
        }
        Sym::Name(_) => {}
    }
}

/// Marks the letters that an arc uses, and their codes.
pub(crate) fn mark_letters(
    grammar: &Grammar,
    arc: &ArcKey,
    letters: &mut [bool],
    codes: &mut [bool],
)
    requires sound { IsSound grammar.now }
    requires shaped { IsShaped grammar.now arc.now }
    requires letters { length letters.old ≡ 65536 }
    requires codes { length codes.old ≡ 256 }
    ensures letters { Sets (TellsLetter grammar.now arc.now) letters.old letters.new }
    ensures codes { Sets (TellsCode grammar.now arc.now) codes.old codes.new }
{
    let right = rule_of(grammar, arc.rule).right.as_slice();
    let from = arc.suffix as usize;
    mark_symbol(letters, codes, right[from], arc.start);
    if from + 2 != right.len() {
        return;
    }
    mark_symbol(letters, codes, right[from + 1], arc.start + arc.part);
}
