//! Codes and names.

ghost use Rattle.std.specs.Prelude.{◌≡◌, ◌≤◌, ◌<◌, length, slice_index};
ghost use Rattle.std.specs.List.{list_all};
ghost use Rattle.model_rosters.specs.Names.{is_letter, is_window_word};
ghost use Rattle.plan_words.specs.NameWords.{code_at, is_alphanumeric, is_plan_name};

use crate::digits::is_digit;
use crate::fault::WordFault;

/// A name has at most so many letters and digits.
const MOST_BYTES: usize = 24;

// Whether a byte is a letter.
fn is_letter(byte: u8) -> bool
    ensures { result ≡ is_letter byte }
{
    (65 <= byte && byte <= 90) || (97 <= byte && byte <= 122)
}

// Whether a byte is a letter or a digit.
fn is_alphanumeric(byte: u8) -> bool
    ensures { result ≡ is_alphanumeric byte }
{
    is_letter(byte) || is_digit(byte)
}

// Whether all bytes are letters and digits.
fn are_alphanumeric(word: &[u8]) -> bool
    ensures { result ≡ list_all is_alphanumeric word.now }
{
    word.iter().all(|byte| is_alphanumeric(*byte))
}

// Whether a word begins a window of a rule.
#[tactic(auto, unfolding(model_rosters::specs::Names::is_window_word))]
fn is_window_word(word: &[u8]) -> bool
    ensures { result ≡ is_window_word word.now }
{
    word == b"len".as_slice() || word == b"begin".as_slice() || word == b"end".as_slice()
}

/// Reads a code.
///
/// # Errors
///
/// `NoCode` where the word is none.
#[tactic(auto, unfolding(crate::specs::NameWords::code_at))]
pub fn code(word: &[u8]) -> Result<u8, WordFault>
    ensures { result ≡ code_at word.now }
{
    match word {
        [byte] if is_alphanumeric(*byte) => Ok(*byte),
        _ => Err(WordFault::NoCode),
    }
}

/// Returns whether a word is a duty's name: a letter and up to 23 letters and digits, and no word of the
/// windows of a rule.
#[tactic(auto, unfolding(crate::specs::NameWords::is_plan_name))]
pub fn is_plan_name(word: &[u8]) -> bool
    ensures { result ≡ is_plan_name word.now }
{
    0 < word.len()
        && word.len() <= MOST_BYTES
        && is_letter(word[0])
        && are_alphanumeric(word)
        && !is_window_word(word)
}
