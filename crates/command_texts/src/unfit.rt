//! What is noted of a word or pattern that is no shift.

ghost use Rattle.std.specs.Prelude.{◌≡◌, IfOk};
ghost use Rattle.model_rosters.specs.Sound.{IsSound};
ghost use Rattle.tree_span_table.specs.Tables.{IsMadeFor};

use crate::start::{grammar_from, note_refused};
use command_shelf::Shelf;
use model_rosters::{Grammar, Memory};
use std::alloc::{AllocError, Global};
use text_rules::read_rules;
use tree_questions::PatternPrices;
use tree_span_table::Table;

/// The byte that stands in a pattern for any code.
pub(crate) const ANY: u8 = b'#';

// Whether a sign stands for any code.
fn is_any(any: Option<u8>, sign: char) -> bool {
    match any {
        Some(byte) => char::from(byte) == sign,
        None => false,
    }
}

// Whether a sign is the letter of a code, or stands for any.
fn is_known(grammar: &Grammar, any: Option<u8>, sign: char) -> bool {
    is_any(any, sign)
        || grammar
            .codes
            .as_slice()
            .iter()
            .any(|code| char::from(code.byte) == sign)
}

// Returns the first sign of a word that is no code.
fn unknown_sign(grammar: &Grammar, any: Option<u8>, word: &str) -> Option<char> {
    for sign in word.chars() {
        if !is_known(grammar, any, sign) {
            return Some(sign);
        }
    }
    None
}

// Returns how many signs the longest front of a word has that some shift begins with; `None` where the rules
// have no shift.
fn longest_on(table: &mut Table, grammar: &Grammar, any: Option<u8>, word: &[u8]) -> Option<usize>
    requires sound { IsSound grammar.now }
    requires table { IsMadeFor grammar.now table.old }
{
    let mut longest = None;
    for count in 0..=word.len() {
        let prices = PatternPrices::new(grammar, any, &word[..count]);
        if table.least(grammar, &prices).is_none() {
            return longest;
        }
        longest = Some(count);
    }
    longest
}

// Returns the same on a table of its own.
fn longest_front(
    alloc: Global,
    grammar: &Grammar,
    any: Option<u8>,
    word: &[u8],
) -> Result<Option<usize>, Memory>
    requires { IsSound grammar.now }
{
    let mut table = Table::for_instance(alloc, grammar)?;
    let longest = longest_on(&mut table, grammar, any, word);
    drop(table);
    Ok(longest)
}

// Says how many of a word's letters begin a shift.
fn front_text(alloc: Global, front: Option<usize>, letters: usize) -> Result<String, AllocError> {
    match front {
        Some(count) => {
            format!(in alloc; "the first {count} of {letters} letters begin a shift, and no more")
        }
        None => String::from_str(alloc, "the rules have no shift"),
    }
}

// Returns why a word is no shift, or why no shift fits a pattern; nothing after want of memory.
fn reason(alloc: Global, grammar: &Grammar, any: Option<u8>, word: &str) -> Option<String>
    requires { IsSound grammar.now }
{
    let letters = word.chars().count();
    if letters != grammar.periods as usize {
        return format!(in alloc; "{letters} letters, the day has {}", grammar.periods).ok();
    }
    if let Some(sign) = unknown_sign(grammar, any, word) {
        return format!(in alloc; "{sign} is no code").ok();
    }
    let front = longest_front(alloc, grammar, any, word.as_bytes()).ok()?;
    front_text(alloc, front, letters).ok()
}

// Returns why a word is no shift by a rules text that is accepted, from the start name or from another name
// on.
fn reason_by(
    alloc: Global,
    text: &[u8],
    any: Option<u8>,
    word: &[u8],
    start: Option<&str>,
) -> Option<String> {
    let word = str::from_utf8(word).ok()?;
    let grammar = grammar_from(read_rules(alloc, text).ok()?, start)?;
    let reason = reason(alloc, &grammar, any, word);
    drop(grammar);
    reason
}

// Notes why a word is no shift by a rules text that is accepted.
fn note_reason<S: Shelf>(
    alloc: Global,
    shelf: &mut S,
    text: &[u8],
    any: Option<u8>,
    word: &[u8],
    start: Option<&str>,
)
    ensures { S.told shelf.new ≡ S.told shelf.old }
{
    match reason_by(alloc, text, any, word, start) {
        Some(reason) => shelf.note(reason.as_str()),
        None => {}
    }
}

/// Notes why the answer to a rules text and a word, or a pattern in which `any` stands for any code, has this
/// status: the length where it differs from the day's, a sign that is no code, or how much of the word begins
/// a shift, with 1; a name that is none of the rules, with 2; what the text shows of its encoding, with 3.
/// Where memory does not suffice nothing is noted.
pub(crate) fn note_unfit<S: Shelf>(
    alloc: Global,
    shelf: &mut S,
    text: &[u8],
    any: Option<u8>,
    word: &[u8],
    start: Option<&str>,
    status: u8,
)
    ensures { S.told shelf.new ≡ S.told shelf.old }
{
    match status {
        1 => note_reason(alloc, shelf, text, any, word, start),
        _ => note_refused(alloc, shelf, text, start, status),
    }
}
