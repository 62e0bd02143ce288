//! The words of such a note.

use crate::text_places::{Mark, marked_line, nth_line};
use model_rosters::{CodeDef, Grammar, Rule, Sym, Window};
use std::alloc::Global;
use tree_findings::{Finding, WindowKind};

/// How many findings a note has at most.
const MOST_LINES: usize = 12;

/// The texts that findings are about.
#[derive(Clone, Copy)]
pub(crate) struct Source<'a> {
    pub(crate) rules: &'a [u8],
    pub(crate) demand: &'a [u8],
}

// A line of one of the texts, where it has one.
#[derive(Clone, Copy)]
struct Place {
    text: &'static str,
    line: Option<u32>,
}

// The place of the rule of a number.
fn rule_place(source: &Source<'_>, number: usize) -> Place {
    Place {
        text: "rules",
        line: nth_line(source.rules, b"rule", number),
    }
}

// Returns the rule of a number.
fn rule_of(grammar: &Grammar, number: u8) -> Option<&Rule> {
    grammar
        .rules
        .as_slice()
        .get((number as usize).saturating_sub(1))
}

// Returns the bytes of a name.
fn name_bytes(grammar: &Grammar, name: u8) -> &[u8] {
    match grammar.names.as_slice().get(name as usize) {
        Some(name) => name.as_slice(),
        None => &[],
    }
}

// Returns a name.
fn name_of(grammar: &Grammar, name: u8) -> &str {
    str::from_utf8(name_bytes(grammar, name)).unwrap_or("")
}

// Returns the letter of a code.
fn letter_of(grammar: &Grammar, code: u8) -> char {
    match grammar.codes.as_slice().get(code as usize) {
        Some(code) => char::from(code.byte),
        None => '?',
    }
}

// Returns the byte of a code.
fn code_byte(grammar: &Grammar, code: u8) -> u8 {
    match grammar.codes.as_slice().get(code as usize) {
        Some(code) => code.byte,
        None => 0,
    }
}

// Returns the number of the first rule of a name.
fn first_rule(grammar: &Grammar, name: u8) -> Option<usize> {
    let mut number = 1_usize;
    for rule in grammar.rules.as_slice() {
        if rule.left == name {
            return Some(number);
        }
        number = number.saturating_add(1);
    }
    None
}

// Whether a rule has a name as its one symbol.
fn is_only(rule: &Rule, name: u8) -> bool {
    match rule.right.as_slice() {
        [Sym::Name(only)] => *only == name,
        _ => false,
    }
}

// Returns the number of the first rule that leads from the start name to a name.
fn team_rule(grammar: &Grammar, name: u8) -> Option<usize> {
    let mut number = 1_usize;
    for rule in grammar.rules.as_slice() {
        if rule.left == grammar.start && is_only(rule, name) {
            return Some(number);
        }
        number = number.saturating_add(1);
    }
    None
}

// Returns the number of the first rule that is the same as that of a number.
fn same_rule(grammar: &Grammar, number: u8) -> Option<usize> {
    let rule = rule_of(grammar, number)?;
    let mut first = 1_usize;
    for other in grammar.rules.as_slice() {
        if other == rule {
            return Some(first);
        }
        first = first.saturating_add(1);
    }
    None
}

// The place of a rule that may be none.
fn some_rule_place(source: &Source<'_>, number: Option<usize>) -> Place {
    match number {
        Some(number) => rule_place(source, number),
        None => Place {
            text: "rules",
            line: None,
        },
    }
}

// The place where a code is declared.
fn code_place(source: &Source<'_>, byte: u8) -> Place {
    let word = [byte];
    let mark = Mark::Any(&word);
    let work = marked_line(source.rules, b"work", mark);
    Place {
        text: "rules",
        line: work.or(marked_line(source.rules, b"idle", mark)),
    }
}

// The place of a group.
fn group_place(source: &Source<'_>, name: &[u8]) -> Place {
    Place {
        text: "demand",
        line: marked_line(source.demand, b"group", Mark::Second(name)),
    }
}

// The place of a code's needs.
fn need_place(source: &Source<'_>, byte: u8) -> Place {
    let word = [byte];
    Place {
        text: "demand",
        line: marked_line(source.demand, b"need", Mark::Second(&word)),
    }
}

// Returns the place that a finding names.
fn place_of(source: &Source<'_>, grammar: &Grammar, finding: Finding) -> Place {
    match finding {
        Finding::NoShift => some_rule_place(source, None),
        Finding::IdleRule(rule) | Finding::BeyondDay(rule, _) | Finding::SameRule(rule) => {
            rule_place(source, rule as usize)
        }
        Finding::IdleName(name) => some_rule_place(source, first_rule(grammar, name)),
        Finding::AbsentTeam(name) => some_rule_place(source, team_rule(grammar, name)),
        Finding::IdleCode(code) => code_place(source, code_byte(grammar, code)),
        Finding::StrangeGroup(name) => group_place(source, name_bytes(grammar, name)),
        Finding::VainNeed(code, _) => need_place(source, code_byte(grammar, code)),
    }
}

// Returns the word and the window of a rule.
fn window_of(rule: &Rule, kind: WindowKind) -> (&'static str, Window) {
    match kind {
        WindowKind::Length => ("len", rule.span),
        WindowKind::First => ("begin", rule.first),
        WindowKind::Last => ("end", rule.last),
    }
}

// Says that a window begins behind the day.
fn beyond_text(alloc: Global, grammar: &Grammar, rule: u8, kind: WindowKind) -> Option<String> {
    let (word, window) = window_of(rule_of(grammar, rule)?, kind);
    format!(in alloc;
        "{word} {} {}, but the last period is {}",
        window.lo, window.hi, grammar.periods
    )
    .ok()
}

// Says that a rule stands twice.
fn same_text(alloc: Global, source: &Source<'_>, grammar: &Grammar, rule: u8) -> Option<String> {
    match some_rule_place(source, same_rule(grammar, rule)).line {
        Some(line) => format!(in alloc; "the same rule as in line {line}").ok(),
        None => String::from_str(alloc, "the same rule stands before").ok(),
    }
}

// Returns what a finding says.
fn text_of(
    alloc: Global,
    source: &Source<'_>,
    grammar: &Grammar,
    finding: Finding,
) -> Option<String> {
    match finding {
        Finding::NoShift => String::from_str(alloc, "there is no shift").ok(),
        Finding::IdleRule(_) => String::from_str(alloc, "no shift uses this rule").ok(),
        Finding::IdleName(name) => {
            format!(in alloc; "no shift uses the name {}", name_of(grammar, name)).ok()
        }
        Finding::IdleCode(code) => {
            format!(in alloc; "no shift has the code {}", letter_of(grammar, code)).ok()
        }
        Finding::BeyondDay(rule, kind) => beyond_text(alloc, grammar, rule, kind),
        Finding::SameRule(rule) => same_text(alloc, source, grammar, rule),
        Finding::StrangeGroup(name) => {
            let start = name_of(grammar, grammar.start);
            format!(in alloc; "no shift of {start} is one of {}", name_of(grammar, name)).ok()
        }
        Finding::AbsentTeam(name) => {
            format!(in alloc; "no group has the name {}", name_of(grammar, name)).ok()
        }
        Finding::VainNeed(code, period) => {
            let letter = letter_of(grammar, code);
            format!(in alloc; "no shift has {letter} in period {period}").ok()
        }
    }
}

// Adds a line to others, of which the last has no line feed.
fn add_line(text: &mut String, line: &str) -> Option<()> {
    if !text.is_empty() {
        text.push('\n').ok()?;
    }
    text.push_str(line).ok()
}

// Adds the line of a finding.
fn add_finding(
    alloc: Global,
    source: &Source<'_>,
    grammar: &Grammar,
    finding: Finding,
    text: &mut String,
) -> Option<()> {
    let said = text_of(alloc, source, grammar, finding)?;
    let place = place_of(source, grammar, finding);
    let line = match place.line {
        Some(line) => format!(in alloc; "{}: line {line}: {said}", place.text).ok()?,
        None => format!(in alloc; "{}: {said}", place.text).ok()?,
    };
    add_line(text, line.as_str())
}

// Adds how many findings are left out, if any are.
fn add_more(alloc: Global, count: usize, text: &mut String) -> Option<()> {
    if count <= MOST_LINES {
        return Some(());
    }
    let more = count.saturating_sub(MOST_LINES);
    add_line(text, format!(in alloc; "and {more} more").ok()?.as_str())
}

/// Returns the findings, one a line and at most twelve, and how many are left out. The grammar is that of the
/// rules text. `None` after want of memory.
pub(crate) fn findings_text(
    alloc: Global,
    source: &Source<'_>,
    grammar: &Grammar,
    found: &[Finding],
) -> Option<String> {
    let mut text = String::new(alloc);
    for finding in found.iter().take(MOST_LINES) {
        add_finding(alloc, source, grammar, *finding, &mut text)?;
    }
    add_more(alloc, found.len(), &mut text)?;
    Some(text)
}
