//! Whole numbers that words say.

ghost use Rattle.std.specs.Prelude.{◌≡◌, ◌≤◌, IfOk};
ghost use Rattle.plan_words.specs.Numbers.{number_at};

use crate::fault::WordFault;
use text_lines::read_within;

/// Reads a whole number from `low` to `high`.
///
/// # Errors
///
/// `NoNumber` where the word is none, and `Outside` where it is not in the range.
pub fn number(low: u32, high: u32, word: &[u8]) -> Result<u32, WordFault>
    ensures value { result ≡ number_at low high word.now }
    ensures least { IfOk result (λ n. low ≤ n) }
    ensures within { IfOk result (λ n. n ≤ high) }
{
    let outside = WordFault::Outside { low, high };
    match read_within(
        low as u128,
        high as u128,
        WordFault::NoNumber,
        outside,
        word,
    ) {
        Ok(n) => Ok(n as u32),
        Err(fault) => Err(fault),
    }
}
