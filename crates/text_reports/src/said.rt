//! What a line says.

ghost use Rattle.std.specs.Prelude.{◌≡◌, ◌==◌, ◌<◌, ◌≤◌, Some, None, is_some, length, position, IfSome, MatchOption};
ghost use Rattle.std.specs.List.{list_all};
ghost use Rattle.text_proof_pieces.specs.Fields.{has_name};
ghost use Rattle.text_proof_pieces.specs.ShiftLines.{is_pair, version};
ghost use Rattle.text_reports.specs.LineWords.{
  number_word,
  value_word,
  number_said,
  header_said,
  done_of,
  done_said,
  amount_of,
  amount_said,
  group_of,
  letters_of,
  plain_said,
  named_said,
  shift_said,
  is_count,
  part_said,
};

use crate::part::{Part, part_name};
use model_rosters::{Done, Group, List};
use text_lines::{Line, Words, read_natural, words_left};

/// The number that a word says, where it is no greater than `most`.
#[tactic(auto, unfolding(crate::specs::LineWords::number_word))]
pub(crate) fn number_word(most: u64, word: &[u8]) -> Option<u64>
    ensures value { result ≡ number_word most word.now }
    ensures within { IfSome result (λ n. n ≤ most) }
{
    match read_natural(word) {
        Ok(n) if n <= most as u128 => Some(n as u64),
        _ => None,
    }
}

// The second of two words, of which the first is this one.
#[tactic(auto, unfolding(crate::specs::LineWords::value_word))]
fn value_word<'a>(first: &[u8], line: &Line<'a>) -> Option<&'a [u8]>
    ensures { MatchOption result (value_word first.now line.now.words ≡ None)
        (λ w. value_word first.now line.now.words ≡ Some w.now) }
{
    let mut words = line.words();
    let Some(v) = words.next() else {
        return None;
    };
    let Some(w) = words.next() else {
        return None;
    };
    if let Some(_) = words.next() {
        return None;
    }
    if v == first { Some(w) } else { None }
}

/// What a line of this word and of a number says.
#[tactic(auto, unfolding(crate::specs::LineWords::number_said))]
pub(crate) fn number_said(most: u64, first: &[u8], line: &Line<'_>) -> Option<u64>
    ensures value { result ≡ number_said most first.now line.now.words }
    ensures within { IfSome result (λ n. n ≤ most) }
{
    match value_word(first, line) {
        Some(word) => number_word(most, word),
        None => None,
    }
}

// Says whether the words are these two.
fn is_pair(words: &mut Words<'_>, first: &[u8], second: &[u8]) -> bool
    ensures { result ≡ is_pair first.now second.now words.old }
{
    let Some(v) = words.next() else {
        return false;
    };
    let Some(w) = words.next() else {
        return false;
    };
    if let Some(_) = words.next() {
        return false;
    }
    v == first && w == second
}

// Returns the version of a report, with groups and without.
fn version(groups: &[Group]) -> &'static [u8]
    ensures { result.now ≡ version groups.now }
{
    if groups.is_empty() { b"1" } else { b"2" }
}

/// Whether the line is the first of a report for these groups.
#[tactic(auto, unfolding(crate::specs::LineWords::header_said))]
pub(crate) fn is_header(groups: &[Group], line: &Line<'_>) -> bool
    ensures { is_some (header_said groups.now line.now.words) ≡ result }
{
    let mut words = line.words();
    is_pair(&mut words, b"report", version(groups))
}

// Returns how the search ended by a word, if it says that.
#[tactic(auto, unfolding(crate::specs::LineWords::done_of))]
fn done_of(word: &[u8]) -> Option<Done>
    ensures { result ≡ done_of word.now }
{
    if word == b"optimal".as_slice() {
        return Some(Done::Equal);
    }
    if word == b"none".as_slice() {
        return Some(Done::NoRoster);
    }
    if word == b"turns".as_slice() {
        return Some(Done::TurnsOut);
    }
    None
}

/// How the search ended, as a line says.
#[tactic(auto, unfolding(crate::specs::LineWords::done_said))]
pub(crate) fn done_said(line: &Line<'_>) -> Option<Done>
    ensures { result ≡ done_said line.now.words }
{
    match value_word(b"result", line) {
        Some(word) => done_of(word),
        None => None,
    }
}

// Returns the cost or bound that a word says, if any.
#[tactic(auto, unfolding(crate::specs::LineWords::amount_of))]
fn amount_of(word: &[u8]) -> Option<Option<u64>>
    ensures { result ≡ amount_of word.now }
{
    if word == b"none".as_slice() {
        return Some(None);
    }
    match number_word(u64::MAX, word) {
        Some(n) => Some(Some(n)),
        None => None,
    }
}

/// What a line of this word and of a cost or a bound says.
#[tactic(auto, unfolding(crate::specs::LineWords::amount_said))]
pub(crate) fn amount_said(first: &[u8], line: &Line<'_>) -> Option<Option<u64>>
    ensures { result ≡ amount_said first.now line.now.words }
{
    match value_word(first, line) {
        Some(word) => amount_of(word),
        None => None,
    }
}

// Says whether the name of a group is the word.
fn has_name(names: &[List<u8>], word: &[u8], group: &Group) -> bool
    ensures { result ≡ has_name names.now word.now group.now }
{
    match names.get(group.name as usize) {
        Some(name) => name.as_slice() == word,
        None => false,
    }
}

// Returns the place of the group whose name is the word, if there is one.
fn group_place(names: &[List<u8>], groups: &[Group], word: &[u8]) -> Option<usize>
    ensures place { result ≡ position (has_name names.now word.now) groups.now }
    ensures within { IfSome result (λ i. i < length groups.now) }
{
    groups.iter().position(|group| has_name(names, word, group))
}

// Returns the number of the group whose name is the word, from 1, if there is one.
#[tactic(auto, unfolding(crate::specs::LineWords::group_of))]
fn group_of(names: &[List<u8>], groups: &[Group], word: &[u8]) -> Option<u8>
    requires { length groups.now ≤ 8 }
    ensures { result ≡ group_of names.now groups.now word.now }
{
    match group_place(names, groups, word) {
        Some(place) => Some(place as u8 + 1),
        None => None,
    }
}

/// What the line of a shift says; the word is a part of the text.
#[derive(Clone, Copy, Drop)]
pub(crate) struct ShiftWords<'a> {
    pub group: u8,
    pub word: &'a [u8],
    pub price: u64,
}

// Returns what the words of a shift's line say, if the word is not too long and the price is a number.
#[tactic(auto, unfolding(crate::specs::LineWords::letters_of))]
fn letters_of<'a>(group: u8, word: &'a [u8], price: &[u8]) -> Option<ShiftWords<'a>>
    ensures { MatchOption result (letters_of group word.now price.now ≡ None)
        (λ s. letters_of group word.now price.now ≡ Some
        (record { group = s.group; word = s.word.now; price = s.price })) }
{
    if 96 < word.len() {
        return None;
    }
    match number_word(u64::MAX, price) {
        Some(price) => Some(ShiftWords { group, word, price }),
        None => None,
    }
}

// Returns what the line of a shift says on a day without groups, if it is one.
#[tactic(auto, unfolding(crate::specs::LineWords::plain_said))]
fn plain_said<'a>(line: &Line<'a>) -> Option<ShiftWords<'a>>
    ensures { MatchOption result (plain_said line.now.words ≡ None)
        (λ s. plain_said line.now.words ≡ Some
        (record { group = s.group; word = s.word.now; price = s.price })) }
{
    let mut words = line.words();
    let Some(first) = words.next() else {
        return None;
    };
    let Some(word) = words.next() else {
        return None;
    };
    let Some(price) = words.next() else {
        return None;
    };
    if let Some(_) = words.next() {
        return None;
    }
    if first != b"shift".as_slice() {
        return None;
    }
    letters_of(0, word, price)
}

// Returns what the line of a shift says on a day with groups, if it is one.
#[tactic(auto, unfolding(crate::specs::LineWords::named_said))]
fn named_said<'a>(names: &[List<u8>], groups: &[Group], line: &Line<'a>) -> Option<ShiftWords<'a>>
    requires { length groups.now ≤ 8 }
    ensures { MatchOption result (named_said names.now groups.now line.now.words ≡ None)
        (λ s. named_said names.now groups.now line.now.words ≡ Some
        (record { group = s.group; word = s.word.now; price = s.price })) }
{
    let mut words = line.words();
    let Some(first) = words.next() else {
        return None;
    };
    let Some(name) = words.next() else {
        return None;
    };
    let Some(word) = words.next() else {
        return None;
    };
    let Some(price) = words.next() else {
        return None;
    };
    if let Some(_) = words.next() {
        return None;
    }
    if first != b"shift".as_slice() {
        return None;
    }
    let Some(group) = group_of(names, groups, name) else {
        return None;
    };
    letters_of(group, word, price)
}

/// What the line of a shift says for these groups.
pub(crate) fn shift_said<'a>(
    names: &[List<u8>],
    groups: &[Group],
    line: &Line<'a>,
) -> Option<ShiftWords<'a>>
    requires { length groups.now ≤ 8 }
    ensures { MatchOption result (shift_said names.now groups.now line.now.words ≡ None)
        (λ s. shift_said names.now groups.now line.now.words ≡ Some
        (record { group = s.group; word = s.word.now; price = s.price })) }
{
    if groups.is_empty() {
        plain_said(line)
    } else {
        named_said(names, groups, line)
    }
}

// Says whether a word is a count.
fn is_count(word: &[u8]) -> bool
    ensures { result ≡ is_count word.now }
{
    number_word(u32::MAX as u64, word).is_some()
}

// Whether all words that are left are numbers of 32 bits.
fn are_counts(words: &mut Words<'_>) -> bool
    ensures { result ≡ list_all is_count words.old }
{
    while let Some(word) = words.next() {
        if !is_count(word) {
            return false;
        }
    }
    true
}

// Says whether there are as many words as periods.
fn has_length(words: &Words<'_>, periods: u8) -> bool
    ensures { result ≡ (length words.now == periods) }
{
    let mut again = words.again();
    words_left(&mut again) == periods as usize
}

/// The words of the numbers of a line for this part of a code's cells.
#[tactic(auto, unfolding(crate::specs::LineWords::part_said))]
pub(crate) fn part_said<'a>(part: Part, code: u8, periods: u8, line: &Line<'a>) -> Option<Words<'a>>
    ensures { MatchOption result (part_said part code periods line.now.words ≡ None)
        (λ ws. part_said part code periods line.now.words ≡ Some ws) }
{
    let mut words = line.words();
    let Some(first) = words.next() else {
        return None;
    };
    let Some(second) = words.next() else {
        return None;
    };
    if first != part_name(part) {
        return None;
    }
    if second != [code].as_slice() {
        return None;
    }
    if !has_length(&words, periods) {
        return None;
    }
    let mut again = words.again();
    if !are_counts(&mut again) {
        return None;
    }
    Some(words)
}
