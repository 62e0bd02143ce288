//! The words of lines.

ghost use Rattle.std.specs.Prelude.{◌≡◌, ◌<◌, ◌≤◌, ◌==◌, length, position, IfOk, IfSome};
ghost use Rattle.page_labels.specs.Fields.{checked, code_at, group_at, has_name, joined, words_at};
ghost use Rattle.page_labels.specs.Steps.{Reads};

use crate::fault::LabelFault;
use model_rosters::{CodeDef, Group, List, Memory};
use std::alloc::Global;
use text_lines::{Words, put, word};

/// A title and the words for a code or a group have at most so many bytes.
const MOST_BYTES: usize = 60;

// Takes all words, with one space between them.
fn joined(alloc: Global, words: &mut Words<'_>) -> Result<List<u8>, Memory>
    ensures { IfOk result (λ text. text ≡ joined words.old) }
{
    let mut out = List::new(alloc);
    let Some(first) = words.next() else {
        return Ok(out);
    };
    put(&mut out, first)?;
    while let Some(next) = words.next() {
        word(&mut out, next)?;
    }
    Ok(out)
}

// Gives words back that are 1 to 60 bytes.
#[tactic(auto, unfolding(crate::specs::Fields::checked))]
fn checked(line: u32, text: List<u8>) -> Result<List<u8>, LabelFault>
    ensures { result ≡ checked line text }
{
    if text.len() == 0 {
        return Err(LabelFault::UnknownLine { line });
    }
    if MOST_BYTES < text.len() {
        return Err(LabelFault::OutOfRange { line });
    }
    Ok(text)
}

/// Takes all words that are left in a line.
///
/// # Errors
///
/// `UnknownLine` where there is none, `OutOfRange` where they have more than 60 bytes, with the line;
/// `Memory` where memory runs out.
pub fn words_of(alloc: Global, line: u32, words: &mut Words<'_>) -> Result<List<u8>, LabelFault>
    ensures { Reads (λ t. t) result (words_at line words.old) }
{
    let text = joined(alloc, words)?;
    checked(line, text)
}

// Returns the place of the code with this byte, if there is one.
fn code_place(codes: &[CodeDef], byte: u8) -> Option<usize>
    ensures place { result ≡ position (λ d. d.byte == byte) codes.now }
    ensures within { IfSome result (λ i. i < length codes.now) }
{
    codes.iter().position(|def| def.byte == byte)
}

/// Reads a code, and gives its position in `codes`.
///
/// # Errors
///
/// `UnknownCode` with the line, where the word is none.
#[tactic(auto, unfolding(crate::specs::Fields::code_at))]
pub fn code(line: u32, codes: &[CodeDef], word: &[u8]) -> Result<u8, LabelFault>
    requires { length codes.now ≤ 32 }
    ensures { result ≡ code_at line codes.now word.now }
{
    if word.len() != 1 {
        return Err(LabelFault::UnknownCode { line });
    }
    match code_place(codes, word[0]) {
        Some(place) => Ok(place as u8),
        None => Err(LabelFault::UnknownCode { line }),
    }
}

// Tells whether a group's name is the word.
fn has_name(names: &[List<u8>], word: &[u8], group: &Group) -> bool
    ensures { result ≡ has_name names.now word.now group.now }
{
    match names.get(group.name as usize) {
        Some(name) => name.as_slice() == word,
        None => false,
    }
}

// Returns the place of the first group whose name is the word.
fn group_place(names: &[List<u8>], groups: &[Group], word: &[u8]) -> Option<usize>
    ensures place { result ≡ position (has_name names.now word.now) groups.now }
    ensures within { IfSome result (λ i. i < length groups.now) }
{
    groups.iter().position(|group| has_name(names, word, group))
}

/// Reads the name of a group, and gives the group's number, from 1.
///
/// # Errors
///
/// `NoName` with the line, where no group of the day has the name.
#[tactic(auto, unfolding(crate::specs::Fields::group_at))]
pub fn group(line: u32, names: &[List<u8>], groups: &[Group], word: &[u8]) -> Result<u8, LabelFault>
    requires { length groups.now ≤ 8 }
    ensures { result ≡ group_at line names.now groups.now word.now }
{
    match group_place(names, groups, word) {
        Some(place) => Ok(place as u8 + 1),
        None => Err(LabelFault::NoName { line }),
    }
}
