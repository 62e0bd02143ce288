//! A day and a grammar of their parts.

ghost use Rattle.std.specs.Prelude.{◌≡◌, IfOk, map};
ghost use Rattle.model_sample_days.specs.Built.{rule_of, two_codes, grammar_of, day_of};

use model_rosters::{Cell, CodeDef, Grammar, Group, Instance, List, Memory, Rule, Sym, Window};
use std::alloc::Global;

/// Every length and every period of the longest day.
pub const ANY: Window = Window { lo: 1, hi: 96 };

/// The letter `a` of sample days, which is work.
pub const WORK: Sym = Sym::Code(0);

/// The letter `.` of sample days, which is rest.
pub const REST: Sym = Sym::Code(1);

/// A rule of a sample day: its left side, its cost, its right side, and the lengths on which it may stand.
pub type RuleParts<'a> = (u8, u32, &'a [Sym], Window);

/// A sample day: its codes are `a`, which is work, and `.`, which is rest. On a day with groups the
/// names and rules are those of the extension by them.
#[derive(Clone, Copy, Debug, Drop)]
pub struct DayParts<'a> {
    pub periods: u8,
    pub names: &'a [&'a str],
    pub rules: &'a [RuleParts<'a>],
    pub start: u8,
    /// The least and the greatest head count.
    pub heads: (u32, u32),
    pub groups: &'a [Group],
    pub cells: &'a [Cell],
}

// Returns the codes of all sample days: `a` for work, and a full stop for rest.
fn codes(alloc: Global) -> Result<List<CodeDef>, Memory>
    ensures { IfOk result (λ l. l ≡ two_codes) }
{
    let codes = [
        CodeDef {
            byte: b'a',
            work: true,
        },
        CodeDef {
            byte: b'.',
            work: false,
        },
    ];
    list(alloc, &codes)
}

// Returns a list of these items.
fn list<T: Copy>(alloc: Global, items: &[T]) -> Result<List<T>, Memory>
    ensures { IfOk result (λ l. l ≡ items.now) }
{
    let items = Vec::from_slice(alloc, items)?;
    Ok(List::from_vec(items))
}

// Returns a list of these names.
fn texts(alloc: Global, names: &[&str]) -> Result<List<List<u8>>, Memory>
    ensures { IfOk result (λ l. l ≡ map (λ n. n.now) names.now) }
{
    let mut texts = List::new(alloc);
    for name in names {
        texts.push(list(alloc, name.as_bytes())?)?;
    }
    Ok(texts)
}

// Returns the rules of these parts.
fn rules(alloc: Global, parts: &[RuleParts]) -> Result<List<Rule>, Memory>
    ensures { IfOk result (λ l. l ≡ map rule_of parts.now) }
{
    let mut rules = List::new(alloc);
    for (left, cost, right, span) in parts {
        rules.push(Rule {
            left: *left,
            cost: *cost,
            right: list(alloc, right)?,
            span: *span,
            first: ANY,
            last: ANY,
        })?;
    }
    Ok(rules)
}

/// Returns the grammar of a sample day.
///
/// # Errors
///
/// `Memory` where memory runs out; nothing is kept then.
pub fn grammar(
    alloc: Global,
    periods: u8,
    names: &[&str],
    parts: &[RuleParts],
    start: u8,
) -> Result<Grammar, Memory>
    ensures { IfOk result (λ g. g ≡ grammar_of periods (map (λ n. n.now) names.now) (map rule_of parts.now)
        start) }
{
    Ok(Grammar {
        periods,
        codes: codes(alloc)?,
        names: texts(alloc, names)?,
        rules: rules(alloc, parts)?,
        start,
    })
}

/// Returns a sample day.
///
/// # Errors
///
/// `Memory` where memory runs out; nothing is kept then.
pub fn day(alloc: Global, parts: &DayParts) -> Result<Instance, Memory>
    ensures { IfOk result (λ i. i ≡ day_of parts.now) }
{
    let groups = list(alloc, parts.groups)?;
    let cells = list(alloc, parts.cells)?;
    let grammar = grammar(alloc, parts.periods, parts.names, parts.rules, parts.start)?;
    let (heads_min, heads_max) = parts.heads;
    Ok(Instance {
        grammar,
        heads_min,
        heads_max,
        groups,
        cells,
    })
}
