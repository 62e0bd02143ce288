//! The line of a shift.

ghost use Rattle.std.specs.Prelude.{◌≡◌, ◌+◌, ◌<◌, ◌≤◌, None, Some, length, position, IfOk, IfSome, MatchOption, OnOk};
ghost use Rattle.std.specs.Option.{option_copied};
ghost use Rattle.text_proof_pieces.specs.Fields.{has_name};
ghost use Rattle.text_old_shifts.specs.ShiftLines.{
  added,
  is_number,
  is_priced,
  letters_words,
  named_team,
  shift_words,
  team_of,
  with_line,
};
ghost use Rattle.text_old_shifts.specs.Steps.{Reads};

use crate::fault::OldFault;
use crate::said::SaidShifts;
use model_rosters::{Group, Instance, List, Memory, Shift};
use std::alloc::Global;
use text_lines::{NumberFault, Words, put, read_natural};

/// An old text has at most so many lines of shifts.
const MOST_SHIFTS: usize = 64;

/// A word has at most so many bytes.
const MOST_BYTES: usize = 96;

// The words of a shift's line, apart from the first.
#[derive(Clone, Copy, Drop)]
struct ShiftWords<'a> {
    name: Option<&'a [u8]>,
    word: &'a [u8],
    price: Option<&'a [u8]>,
}

// Takes a shift's word, behind a name where one stands, and what stands behind the word.
fn letters_words<'a>(name: Option<&'a [u8]>, words: &mut Words<'a>) -> Option<ShiftWords<'a>>
    ensures { MatchOption result (letters_words (option_copied name.entry) words.old ≡ None)
        (λ w. letters_words (option_copied name.entry) words.old ≡ Some (record {
          name = option_copied w.name;
          word = w.word.now;
          price = option_copied w.price;
        })) }
{
    let Some(word) = words.next() else {
        return None;
    };
    let price = words.next();
    if let Some(_) = words.next() {
        return None;
    }
    Some(ShiftWords { name, word, price })
}

// Takes the words of a shift's line, with a name or without.
#[tactic(auto, unfolding(crate::specs::ShiftLines::shift_words))]
fn shift_words<'a>(named: bool, words: &mut Words<'a>) -> Option<ShiftWords<'a>>
    ensures { MatchOption result (shift_words named words.old ≡ None)
        (λ w. shift_words named words.old ≡ Some (record {
          name = option_copied w.name;
          word = w.word.now;
          price = option_copied w.price;
        })) }
{
    if !named {
        return letters_words(None, words);
    }
    let Some(name) = words.next() else {
        return None;
    };
    letters_words(Some(name), words)
}

// Whether a word is a number without a sign, of whatever size.
#[tactic(auto, unfolding(crate::specs::ShiftLines::is_number))]
fn is_number(word: &[u8]) -> bool
    ensures { result ≡ is_number word.now }
{
    match read_natural(word) {
        Ok(_) => true,
        Err(NumberFault::Wide) => true,
        Err(NumberFault::Form) => false,
    }
}

// Whether what stands behind a word is a number, or nothing.
fn is_priced(price: Option<&[u8]>) -> bool
    ensures { result ≡ is_priced (option_copied price.entry) }
{
    let Some(price) = price else {
        return true;
    };
    is_number(price)
}

// Tells whether a group's name is the word.
fn has_name(names: &[List<u8>], word: &[u8], group: &Group) -> bool
    ensures { result ≡ has_name names.now word.now group.now }
{
    match names.get(group.name as usize) {
        Some(name) => name.as_slice() == word,
        None => false,
    }
}

// Returns the place of the first group whose name is the word.
fn group_place(names: &[List<u8>], groups: &[Group], word: &[u8]) -> Option<usize>
    ensures place { result ≡ position (has_name names.now word.now) groups.now }
    ensures within { IfSome result (λ i. i < length groups.now) }
{
    groups.iter().position(|group| has_name(names, word, group))
}

// Returns the number of the group of a name, from 1, where one is named that there is.
fn named_team(names: &[List<u8>], groups: &[Group], name: Option<&[u8]>) -> Option<u8>
    requires { length groups.now ≤ 8 }
    ensures { result ≡ named_team names.now groups.now (option_copied name.entry) }
{
    let Some(name) = name else {
        return None;
    };
    match group_place(names, groups, name) {
        Some(place) => Some(place as u8 + 1),
        None => None,
    }
}

// Returns the number of a shift's group: 0 on a day without groups, where a name is dropped.
#[tactic(auto, unfolding(crate::specs::ShiftLines::team_of))]
fn team(instance: &Instance, name: Option<&[u8]>) -> Option<u8>
    requires { length instance.now.groups ≤ 8 }
    ensures { result ≡ team_of instance.now (option_copied name.entry) }
{
    if instance.groups.is_empty() {
        return Some(0);
    }
    let names = instance.grammar.names.as_slice();
    named_team(names, instance.groups.as_slice(), name)
}

// Returns a shift with a word of its own, without a price.
fn unpriced(alloc: Global, group: u8, word: &[u8]) -> Result<Shift, Memory>
    ensures { IfOk result (λ s. s ≡ record { group = group; word = word.now; price = 0 }) }
{
    let mut letters = List::new(alloc);
    put(&mut letters, word)?;
    Ok(Shift {
        group,
        word: letters,
        price: 0,
    })
}

// Adds a shift of a group, or counts its line as passed over where there is no group for it.
#[tactic(auto, unfolding(crate::specs::ShiftLines::with_line))]
fn add(alloc: Global, said: &mut SaidShifts, group: Option<u8>, word: &[u8]) -> Result<(), Memory>
    requires { said.old.passed < 64 }
    ensures { OnOk result (said.new ≡ with_line said.old group word.now) }
{
    let Some(group) = group else {
        said.passed += 1;
        return Ok(());
    };
    let shift = unpriced(alloc, group, word)?;
    said.shifts.push(shift)
}

/// Reads the line of a shift, behind its first word, and adds what it says to what the lines before say.
///
/// # Errors
///
/// The first fault of the line; `Memory` where memory runs out.
#[tactic(auto, unfolding(crate::specs::ShiftLines::added))]
pub(crate) fn shift(
    alloc: Global,
    instance: &Instance,
    named: bool,
    said: &mut SaidShifts,
    line: u32,
    words: &mut Words<'_>,
) -> Result<(), OldFault>
    requires groups { length instance.now.groups ≤ 8 }
    requires few { length said.old.shifts + said.old.passed ≤ 64 }
    ensures { Reads (λ _. (said.new)) result
        (added line instance.now said.old (shift_words named words.old)) }
{
    let Some(words) = shift_words(named, words) else {
        return Err(OldFault::UnknownLine { line });
    };
    if MOST_SHIFTS <= said.shifts.len() + said.passed as usize {
        return Err(OldFault::TooManyShifts { line });
    }
    if MOST_BYTES < words.word.len() {
        return Err(OldFault::OutOfRange { line });
    }
    if !is_priced(words.price) {
        return Err(OldFault::BadNumber { line });
    }
    let group = team(instance, words.name);
    add(alloc, said, group, words.word)?;
    Ok(())
}
