//! What the trees of a day use.

ghost use Rattle.std.specs.Prelude.{◌≡◌, ℕ, length, IsTrue, IfSome};
ghost use Rattle.model_rosters.specs.Grammar.{rule_at};
ghost use Rattle.model_rosters.specs.Sound.{IsSound};
ghost use Rattle.tree_span_arcs.specs.DayArcs.{IsDayArcsOf};
ghost use Rattle.tree_span_arcs.specs.Shapes.{IsShaped};
ghost use Rattle.tree_findings.specs.Marks.{IsSet, Sets, TellsDay, HasRoom, IsFresh, SetsArc, IsUseOf};

use crate::letters::mark_letters;
use crate::marks::set;
use model_rosters::{ArcKey, Grammar, Rule, rule_of};
use std::alloc::Global;
use tree_span_arcs::DayArcs;

/// How many arcs a day may have whose use is told.
const MOST_ARCS: u32 = 100_000;

/// What the trees of a grammar's day use: marks by the numbers of rules, names and codes.
#[derive(Drop)]
pub struct Used {
    /// The rules by number.
    pub(crate) rules: Vec<bool>,
    /// The names.
    pub(crate) names: Vec<bool>,
    /// The names that stand on the whole day in some tree.
    pub(crate) days: Vec<bool>,
    /// The codes.
    pub(crate) codes: Vec<bool>,
    /// The letters: 256 periods for each code.
    pub(crate) letters: Vec<bool>,
}

// Returns so many places, of which none is marked.
fn unmarked(alloc: Global, count: usize) -> Option<Vec<bool>>
    ensures count { IfSome result (λ flags. length flags.items ≡ count) }
    ensures fresh { IfSome result (λ flags. (q : ℕ) → IsSet flags.items q → ⊥) }
{
    vec![in alloc; false; count].ok()
}

// Marks the name of an arc's rule, where the arc makes it on the whole day.
fn mark_day(grammar: &Grammar, arc: &ArcKey, rule: &Rule, days: &mut [bool])
    requires rule { rule_at grammar.now arc.now.rule ≡ Some rule.now }
    requires room { length days.old ≡ 256 }
    ensures { Sets (TellsDay grammar.now arc.now) days.old days.new }
{
    if arc.suffix == 0 && arc.start == 1 && arc.len == grammar.periods {
        set(days, rule.left as usize);
    }
}

// Marks what an arc tells.
fn mark_arc(grammar: &Grammar, arc: &ArcKey, used: &mut Used)
    requires sound { IsSound grammar.now }
    requires shaped { IsShaped grammar.now arc.now }
    requires room { HasRoom used.old }
    ensures { SetsArc grammar.now arc.now used.old used.new }
{
    let rule = rule_of(grammar, arc.rule);
    set(used.rules.as_mut_slice(), arc.rule as usize);
    set(used.names.as_mut_slice(), rule.left as usize);
    mark_day(grammar, arc, rule, used.days.as_mut_slice());
    mark_letters(
        grammar,
        arc,
        used.letters.as_mut_slice(),
        used.codes.as_mut_slice(),
    );
}

// Marks what the arcs of the day tell, and returns whether they are at most 100,000; else some of it is
// marked.
fn mark_all(grammar: &Grammar, day: &DayArcs, used: &mut Used) -> bool
    requires sound { IsSound grammar.now }
    requires day { IsDayArcsOf grammar.now day.now }
    requires room { HasRoom used.old }
    requires fresh { IsFresh used.old }
    ensures { IsTrue result → IsUseOf grammar.now used.new }
{
    let mut next = day.next_arc(grammar, None);
    let mut left = MOST_ARCS;
    while let Some(arc) = next {
        if left == 0 {
            return false;
        }
        left -= 1;
        mark_arc(grammar, &arc, used);
        next = day.next_arc(grammar, Some(arc));
    }
    true
}

impl Used {
    // Nothing is marked.
    fn fresh(alloc: Global) -> Option<Used>
        ensures room { IfSome result HasRoom }
        ensures fresh { IfSome result IsFresh }
    {
        let rules = unmarked(alloc, 256)?;
        let names = unmarked(alloc, 256)?;
        let days = unmarked(alloc, 256)?;
        let codes = unmarked(alloc, 256)?;
        let letters = unmarked(alloc, 65536)?;
        Some(Used {
            rules,
            names,
            days,
            codes,
            letters,
        })
    }

    /// Returns what the trees of a sound grammar's day use; `None` where the day has more than 100,000
    /// arcs, or memory runs out.
    pub fn of(alloc: Global, grammar: &Grammar) -> Option<Used>
        requires { IsSound grammar.now }
        ensures { IfSome result (IsUseOf grammar.now) }
    {
        let mut used = Used::fresh(alloc)?;
        let day = DayArcs::for_instance(alloc, grammar).ok()?;
        if mark_all(grammar, &day, &mut used) {
            Some(used)
        } else {
            None
        }
    }
}
