//! A number in a range.

ghost use Rattle.std.specs.Prelude.{◌≡◌, ◌≤◌, IfOk};
ghost use Rattle.text_lines.specs.Fields.{number_at};

use crate::number::{NumberFault, read_natural};

/// Reads a number from `low` to `high`.
///
/// # Errors
///
/// `none` where the word is no number, and `outside` where the number is not in the range.
#[tactic(auto, unfolding(crate::specs::Fields::number_at))]
pub fn read_within<E: Drop>(
    low: u128,
    high: u128,
    none: E,
    outside: E,
    word: &[u8],
) -> Result<u128, E>
    ensures value { result ≡ number_at none outside low high word.now }
    ensures within { IfOk result (λ n. (low ≤ n) × (n ≤ high)) }
{
    match read_natural(word) {
        Ok(n) if n < low || high < n => Err(outside),
        Ok(n) => Ok(n),
        Err(NumberFault::Form) => Err(none),
        Err(NumberFault::Wide) => Err(outside),
    }
}
