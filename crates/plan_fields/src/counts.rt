//! How many words are left.

ghost use Rattle.std.specs.Prelude.{◌≡◌, length};

use text_lines::{Words, words_left};

/// Returns how many words are left in a line.
pub fn count(words: &Words<'_>) -> u64
    ensures { result ≡ length words.now }
{
    words_left(&mut words.again()) as u64
}
