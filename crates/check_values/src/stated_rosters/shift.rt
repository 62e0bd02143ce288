//! A shift's line.

ghost use Rattle.std.specs.Prelude.{◌≡◌, ◌≤◌, None, Some, length, IfOk, MatchOption};
ghost use Rattle.std.specs.Option.{option_copied};
ghost use Rattle.check_values.specs.stated_rosters.ShiftLines.{
  letters_words,
  shift_words,
  team_at,
  is_priced,
  letters_of,
  added,
  shift_at,
};
ghost use Rattle.check_values.specs.stated_rosters.Steps.{Reads};

use crate::stated_rosters::fault::RosterFault;
use crate::stated_rosters::field::{group, is_number};
use model_rosters::{Group, Instance, List, Memory, Shift};
use std::alloc::Global;
use text_lines::{Words, put};

/// A roster has at most so many shifts.
const MOST_SHIFTS: usize = 64;

/// A word has at most so many bytes.
const MOST_BYTES: usize = 96;

// The words of a shift line, apart from the first.
#[derive(Clone, Copy, Drop)]
struct ShiftWords<'a> {
    name: Option<&'a [u8]>,
    word: &'a [u8],
    price: Option<&'a [u8]>,
}

// Takes a shift's word, behind the name of its group where one stands, and what stands behind the word.
fn letters_words<'a>(name: Option<&'a [u8]>, words: &mut Words<'a>) -> Option<ShiftWords<'a>>
    ensures { MatchOption result (letters_words (option_copied name.entry) words.old ≡ None)
        (λ w. letters_words (option_copied name.entry) words.old ≡ Some (record {
          name = option_copied w.name;
          word = w.word.now;
          price = option_copied w.price;
        })) }
{
    let Some(word) = words.next() else {
        return None;
    };
    let price = words.next();
    if let Some(_) = words.next() {
        return None;
    }
    Some(ShiftWords { name, word, price })
}

// Takes the words of a shift line for these groups.
#[tactic(auto, unfolding(crate::specs::stated_rosters::ShiftLines::shift_words))]
fn shift_words<'a>(groups: &[Group], words: &mut Words<'a>) -> Option<ShiftWords<'a>>
    ensures { MatchOption result (shift_words groups.now words.old ≡ None)
        (λ w. shift_words groups.now words.old ≡ Some (record {
          name = option_copied w.name;
          word = w.word.now;
          price = option_copied w.price;
        })) }
{
    if groups.is_empty() {
        return letters_words(None, words);
    }
    let Some(name) = words.next() else {
        return None;
    };
    letters_words(Some(name), words)
}

// Reads the number of a shift's group, or 0 where none is named.
fn team(line: u32, instance: &Instance, name: Option<&[u8]>) -> Result<u8, RosterFault>
    requires { length instance.now.groups ≤ 8 }
    ensures { result ≡ team_at line instance.now (option_copied name.entry) }
{
    let Some(name) = name else {
        return Ok(0);
    };
    let names = instance.grammar.names.as_slice();
    group(line, names, instance.groups.as_slice(), name)
}

// Whether what stands behind a word is a number, or nothing.
fn is_priced(price: Option<&[u8]>) -> bool
    ensures { result ≡ is_priced (option_copied price.entry) }
{
    let Some(price) = price else {
        return true;
    };
    is_number(price)
}

// Returns a shift with a word of its own, without a price.
fn unpriced(alloc: Global, group: u8, word: &[u8]) -> Result<Shift, Memory>
    ensures { IfOk result (λ s. s ≡ record { group = group; word = word.now; price = 0 }) }
{
    let mut letters = List::new(alloc);
    put(&mut letters, word)?;
    Ok(Shift {
        group,
        word: letters,
        price: 0,
    })
}

// Reads the word of a shift of a group, and what stands behind it.
#[tactic(auto, unfolding(crate::specs::stated_rosters::ShiftLines::letters_of))]
fn letters(
    alloc: Global,
    line: u32,
    group: u8,
    word: &[u8],
    price: Option<&[u8]>,
) -> Result<Shift, RosterFault>
    ensures { Reads (λ s. s) result (letters_of line group word.now (option_copied price.entry)) }
{
    if MOST_BYTES < word.len() {
        return Err(RosterFault::OutOfRange { line });
    }
    if !is_priced(price) {
        return Err(RosterFault::BadNumber { line });
    }
    let shift = unpriced(alloc, group, word)?;
    Ok(shift)
}

/// Reads the line of a shift, behind its first word, and adds the shift to those before.
///
/// # Errors
///
/// The first fault of the line; `Memory` where memory runs out.
#[tactic(auto, unfolding(crate::specs::stated_rosters::ShiftLines::added))]
pub fn shift(
    alloc: Global,
    instance: &Instance,
    shifts: &mut List<Shift>,
    line: u32,
    words: &mut Words<'_>,
) -> Result<(), RosterFault>
    requires { length instance.now.groups ≤ 8 }
    ensures { Reads (λ _. (shifts.new)) result (shift_at line instance.now shifts.old words.old) }
{
    let Some(said) = shift_words(instance.groups.as_slice(), words) else {
        return Err(RosterFault::UnknownLine { line });
    };
    if MOST_SHIFTS <= shifts.len() {
        return Err(RosterFault::TooManyShifts { line });
    }
    let group = team(line, instance, said.name)?;
    let shift = letters(alloc, line, group, said.word, said.price)?;
    shifts.push(shift)?;
    Ok(())
}
