//! A number in a range.

ghost use Rattle.std.specs.Prelude.{◌≡◌, ◌≤◌, IfOk};
ghost use Rattle.text_rules.specs.Fields.{number_at};

use crate::fault::RulesFault;
use text_lines::read_within;

/// Reads a number from `low` to `high`.
///
/// # Errors
///
/// `BadNumber` where the word is no number, and `OutOfRange` where it is not in the range, with the line.
pub fn number(line: u32, low: u32, high: u32, word: &[u8]) -> Result<u32, RulesFault>
    ensures value { result ≡ number_at line low high word.now }
    ensures within { IfOk result (λ n. n ≤ high) }
{
    let none = RulesFault::BadNumber { line };
    let outside = RulesFault::OutOfRange { line };
    match read_within(low as u128, high as u128, none, outside, word) {
        Ok(n) => Ok(n as u32),
        Err(fault) => Err(fault),
    }
}
