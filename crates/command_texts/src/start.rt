//! A name to begin at in place of the start name.

ghost use Rattle.std.specs.Prelude.{◌≡◌, ◌<◌, IfOk, IfSome, length};
ghost use Rattle.std.specs.Option.{option_copied};
ghost use Rattle.std.specs.Str.{bytes_eq};
ghost use Rattle.model_rosters.specs.Sound.{IsPlain, IsSound};
ghost use Rattle.command_texts.specs.Start.{AnswersNoForm, grammar_from, name_place, started};

use command_answers::{Answer, note_encoding, note_remark};
use command_shelf::Shelf;
use model_rosters::{Grammar, List, Memory};
use std::alloc::Global;
use text_fault_notes::rules_note;
use text_rules::read_rules;

/// What is said where the words have no form.
pub const NO_FORM: &[u8] = b"words: none of the forms\n";

// Tells whether a name is the word.
fn is_same(name: &List<u8>, word: &str) -> bool
    ensures { result ≡ bytes_eq name.now word.now }
{
    name.as_slice() == word.as_bytes()
}

// Returns the number of a name.
fn name_place(grammar: &Grammar, word: &str) -> Option<usize>
    ensures place { result ≡ name_place grammar.now word.now }
    ensures within { IfSome result (λ x. x < length grammar.now.names) }
{
    let names = grammar.names.as_slice();
    names.iter().position(|name| is_same(name, word))
}

// Returns the grammar with the name of this number for its start name.
fn started(grammar: Grammar, place: Option<usize>) -> Option<Grammar>
    requires sound { IsSound grammar }
    requires plain { IsPlain grammar }
    requires within { IfSome place (λ x. x < length grammar.names) }
    ensures is { result ≡ started grammar place }
    ensures sound { IfSome result IsSound }
{
    match place {
        Some(place) => {
            let mut grammar = grammar;
            grammar.start = place as u8;
            Some(grammar)
        }
        None => None,
    }
}

/// Returns the grammar of a rules text with this name for its start name, `None` where it has no such name;
/// where no name is said, the grammar itself.
pub fn grammar_from(grammar: Grammar, start: Option<&str>) -> Option<Grammar>
    requires sound { IsSound grammar }
    requires plain { IsPlain grammar }
    ensures is { result ≡ grammar_from grammar (option_copied start.entry) }
    ensures sound { IfSome result IsSound }
{
    match start {
        Some(name) => {
            let place = name_place(&grammar, name);
            started(grammar, place)
        }
        None => Some(grammar),
    }
}

/// Answers that the words have no form.
///
/// # Errors
///
/// Want of memory for the line.
pub fn no_form(alloc: Global) -> Result<Answer, Memory>
    ensures { IfOk result (λ a. AnswersNoForm a.status a.output) }
{
    let bytes = Vec::from_slice(alloc, NO_FORM)?;
    Ok(Answer {
        status: 2,
        output: List::from_vec(bytes),
    })
}

// Notes that a name is none of the rules; nothing after want of memory.
fn note_name<S: Shelf>(alloc: Global, shelf: &mut S, name: &str)
    ensures { S.told shelf.new ≡ S.told shelf.old }
{
    match format!(in alloc; "{name} is no name of the rules") {
        Ok(note) => shelf.note(note.as_str()),
        Err(_) => {}
    }
}

// Notes of a name that was said that it is none of the rules.
fn note_start<S: Shelf>(alloc: Global, shelf: &mut S, start: Option<&str>)
    ensures { S.told shelf.new ≡ S.told shelf.old }
{
    match start {
        Some(name) => note_name(alloc, shelf, name),
        None => {}
    }
}

// Returns what is noted of a rules text that is refused.
fn fault_note(alloc: Global, text: &[u8]) -> Option<String> {
    match read_rules(alloc, text) {
        Ok(_) => None,
        Err(fault) => rules_note(alloc, text, fault),
    }
}

// Notes why a rules text is refused, with the status 3.
fn note_fault<S: Shelf>(alloc: Global, shelf: &mut S, text: &[u8], status: u8)
    ensures { S.told shelf.new ≡ S.told shelf.old }
{
    if status == 3 {
        note_remark(shelf, fault_note(alloc, text));
    }
}

// Notes why a rules text is refused, and what it shows of its encoding, where an answer has such a status.
fn note_text<S: Shelf>(alloc: Global, shelf: &mut S, text: &[u8], status: u8)
    ensures { S.told shelf.new ≡ S.told shelf.old }
{
    note_fault(alloc, shelf, text, status);
    note_encoding(shelf, text, status);
}

/// Notes why a rules text, or a name to begin at, is refused, where an answer has such a status: 2 for the
/// name, 3 for the text.
pub(crate) fn note_refused<S: Shelf>(
    alloc: Global,
    shelf: &mut S,
    text: &[u8],
    start: Option<&str>,
    status: u8,
)
    ensures { S.told shelf.new ≡ S.told shelf.old }
{
    match status {
        2 => note_start(alloc, shelf, start),
        _ => note_text(alloc, shelf, text, status),
    }
}
