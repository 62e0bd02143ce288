//! A rule line.

ghost use Rattle.std.specs.Prelude.{◌≡◌, ◌+◌, ◌^◌, ◌<◌, ◌≤◌, [], ◌∷◌, ◌==◌, length, take, drop, codes, OnOk, IfOk, MatchOption};
ghost use Rattle.std.specs.List.{position_or_len};
ghost use Rattle.std.specs.Str.{bytes_eq};
ghost use Rattle.text_rules.specs.Names.{name_at};
ghost use Rattle.text_rules.specs.RuleLine.{symbol_at, symbol_count, are_windows, rule_of, rule_at, whole};
ghost use Rattle.text_rules.specs.Steps.{Reads, each};

use crate::bounds::{are_windows, read_windows};
use crate::fault::{Limit, RulesFault};
use crate::field::number;
use crate::names::{Names, is_window_word};
use crate::place::Place;
use crate::rules::Rules;
use crate::symbol::symbol;
use model_rosters::{CodeDef, List, Rule, Sym, Window};
use std::alloc::Global;
use text_lines::Words;

// How many words stand before the windows.
fn symbol_count(words: &mut Words<'_>) -> usize
    requires { length words.old < 2 ^ 64 }
    ensures value { result ≡ symbol_count words.old }
    ensures within { result ≤ length words.old }
{
    let mut n = 0;
    while let Some(word) = words.next() {
        if is_window_word(word) {
            return n;
        }
        n += 1;
    }
    n
}

// Reads so many symbols.
fn symbols(
    alloc: Global,
    codes: &[CodeDef],
    names: &mut Names,
    line: u32,
    words: &mut Words<'_>,
    count: usize,
) -> Result<List<Sym>, RulesFault>
    requires few { length codes.now ≤ 32 }
    requires there { count ≤ length words.old }
    ensures value { Reads (λ right. (names.new, right)) result
        (each (symbol_at line codes.now) (names.old, []) (take count words.old)) }
    ensures rest { OnOk result (words.new ≡ drop count words.old) }
{
    let mut right = List::new(alloc);
    for _ in 0..count {
        if let Some(word) = words.next() {
            symbol(alloc, codes, names, &mut right, line, word)?;
        }
    }
    Ok(right)
}

// Reads a rule, the form of whose line is right.
#[tactic(auto, unfolding(crate::specs::RuleLine::rule_of))]
fn rule_of(
    alloc: Global,
    codes: &[CodeDef],
    state: &mut Rules,
    line: u32,
    name: &[u8],
    cost: &[u8],
    words: &mut Words<'_>,
    count: usize,
) -> Result<(), RulesFault>
    requires few { length codes.now ≤ 32 }
    requires there { count ≤ length words.old }
    ensures value { Reads (λ _. (state.new)) result
        (rule_of line codes.now state.old name.now cost.now (take count words.old) (drop count words.old)) }
{
    if 64 <= state.rules.len() {
        return Err(RulesFault::TooMany {
            line,
            what: Limit::Rules,
            most: 64,
        });
    }
    let left = state.names.read(alloc, Place { line, word: 2 }, name)?;
    let cost = number(line, 0, 10000, cost)?;
    if count == 0 {
        return Err(RulesFault::EmptyRight { line });
    }
    let right = symbols(alloc, codes, &mut state.names, line, words, count)?;
    let windows = read_windows(line, words)?;
    let rule = Rule {
        left,
        cost,
        right,
        span: whole(windows.span),
        first: whole(windows.first),
        last: whole(windows.last),
    };
    state.rules.push(rule)?;
    Ok(())
}

// Returns the window that was written, or that of all lengths and periods.
fn whole(window: Option<Window>) -> Window
    ensures { result ≡ whole window }
{
    window.unwrap_or(Window { lo: 1, hi: 96 })
}

/// Reads a rule line, behind its first word.
///
/// # Errors
///
/// The line's first fault, as `rule_at` says it, with the line's number. `Memory` may come at any time.
/// Nothing is said of the rules then.
#[tactic(auto, unfolding(crate::specs::RuleLine::rule_at))]
pub fn rule(
    alloc: Global,
    codes: &[CodeDef],
    state: &mut Rules,
    line: u32,
    words: &mut Words<'_>,
) -> Result<(), RulesFault>
    requires few { length codes.now ≤ 32 }
    ensures value { Reads (λ _. (state.new)) result (rule_at line codes.now state.old words.old) }
{
    let Some(name) = words.next() else {
        return Err(RulesFault::UnknownLine { line });
    };
    let Some(cost) = words.next() else {
        return Err(RulesFault::UnknownLine { line });
    };
    let Some(mark) = words.next() else {
        return Err(RulesFault::UnknownLine { line });
    };
    let mut symbols = words.again();
    let count = symbol_count(&mut symbols);
    let mut windows = words.again();
    windows.skip(count);
    if mark != b"=".as_slice() || !are_windows(&mut windows) {
        return Err(RulesFault::UnknownLine { line });
    }
    rule_of(alloc, codes, state, line, name, cost, words, count)
}
