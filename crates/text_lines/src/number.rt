//! Words as numbers, and numbers as words.

ghost use Rattle.std.specs.Prelude.{◌≡◌, ℤ, unsigned_abs, ◌+◌, ◌-◌, ◌*◌, ◌^◌, ◌<◌, ◌≤◌, ◌++◌, [], ◌∷◌, ◌||◌, ◌==◌, nat_lt, take, slice_index, length, IsTrue, IfOk, OnOk, OnErr, MatchOption};
ghost use Rattle.std.specs.List.{list_all, AllPass};
ghost use Rattle.std.specs.Fmt.{decimal};
ghost use Rattle.text_lines.specs.Numbers.{is_digit, is_plain, natural_of, value, number_of, number_text};

use model_rosters::{List, Memory};

/// Why a word is not read as a number.
#[derive(Clone, Copy, Debug, PartialEq, Eq, Drop)]
pub enum NumberFault {
    /// The word is not spelled as a number.
    Form,
    /// The word is a number of `2^127` or more in size.
    Wide,
}

// Says whether a byte is a digit.
fn is_digit(byte: u8) -> bool
    ensures { result ≡ is_digit byte }
{
    b'0' <= byte && byte <= b'9'
}

// Says whether a word is of digits, the first of which is 0 only where it stands alone.
#[tactic(auto, unfolding(crate::specs::Numbers::is_plain))]
fn is_plain(word: &[u8]) -> bool
    ensures { result ≡ is_plain word.now }
{
    if word.is_empty() {
        return false;
    }
    all_digits(word) && leads(word)
}

// Says whether all bytes are digits.
fn all_digits(word: &[u8]) -> bool
    ensures { result ≡ list_all is_digit word.now }
{
    word.iter().all(|digit| is_digit(*digit))
}

// Whether the first digit may begin a number of so many digits.
fn leads(word: &[u8]) -> bool
    requires { 0 < length word.now }
    ensures { result ≡ (nat_lt 48 (slice_index word.now 0) || length word.now == 1) }
{
    word[0] > b'0' || word.len() == 1
}

// The sizes of numbers are below this.
const LIMIT: u128 = 1 << 127;

// The number that digits stand for, where it is below 2 ^ 127.
fn magnitude(digits: &[u8]) -> Option<u128>
    requires { AllPass is_digit digits.now }
    ensures { MatchOption result (2 ^ 127 ≤ value digits.now) (λ n. (n ≡ value digits.now) × (n < 2 ^ 127)) }
{
    let mut n: u128 = 0;
    for digit in digits {
        if n >= LIMIT / 10 + 1 {
            return None;
        }
        n = 10 * n + (*digit - b'0') as u128;
    }
    if n < LIMIT { Some(n) } else { None }
}

/// Reads a number that may have no sign. A word with a `-` is of no such form, whatever its size.
///
/// # Errors
///
/// `Form` where the word is not of digits, or has a 0 before further ones; `Wide` where the number is 2^127
/// or more.
#[tactic(auto, unfolding(crate::specs::Numbers::natural_of))]
pub fn read_natural(word: &[u8]) -> Result<u128, NumberFault>
    ensures value { result ≡ natural_of word.now }
    ensures within { IfOk result (λ n. n < 2 ^ 127) }
{
    if !is_plain(word) {
        return Err(NumberFault::Form);
    }
    match magnitude(word) {
        Some(n) => Ok(n),
        None => Err(NumberFault::Wide),
    }
}

/// Reads a number that may have a `-` before it. `-0` is no number.
///
/// # Errors
///
/// `Form` where the word without its sign is no number, or the word is `-0`; `Wide` where the number is 2^127
/// or more in size.
#[tactic(auto, unfolding(crate::specs::Numbers::number_of))]
pub fn read_number(word: &[u8]) -> Result<i128, NumberFault>
    ensures { result ≡ number_of word.now }
{
    match word {
        [b'-', digits @ ..] => match read_natural(digits)? {
            0 => Err(NumberFault::Form),
            n => Ok(-(n as i128)),
        },
        _ => Ok(read_natural(word)? as i128),
    }
}

// Appends a byte, or keeps so many of the bytes that were there.
fn push_or_keep(out: &mut List<u8>, byte: u8, count: usize) -> Result<(), Memory>
    ensures ok { OnOk result (out.new ≡ out.old ++ byte ∷ []) }
    ensures err { OnErr result (out.new ≡ take count out.old) }
{
    if out.push(byte).is_ok() {
        return Ok(());
    }
    out.truncate(count);
    Err(Memory)
}

// Appends the digits of a number. After want of memory `out` is as it was before.
fn write_natural(out: &mut List<u8>, value: u128) -> Result<(), Memory>
    ensures ok { OnOk result (out.new ≡ out.old ++ decimal value) }
    ensures err { OnErr result (out.new ≡ out.old) }
{
    if value < 10 {
        return out.push(b'0' + value as u8);
    }
    let count = out.len();
    write_natural(out, value / 10)?;
    push_or_keep(out, b'0' + (value % 10) as u8, count)
}

// Appends a `-` and the digits of a number. After want of memory `out` is as it was before.
fn write_below_zero(out: &mut List<u8>, size: u128) -> Result<(), Memory>
    ensures ok { OnOk result (out.new ≡ out.old ++ 45 ∷ decimal size) }
    ensures err { OnErr result (out.new ≡ out.old) }
{
    let count = out.len();
    out.push(b'-')?;
    if write_natural(out, size).is_ok() {
        return Ok(());
    }
    out.truncate(count);
    Err(Memory)
}

/// Appends a number, with a `-` before its digits where it is below 0.
///
/// # Errors
///
/// `Memory` where memory runs out; `out` is as it was before then.
pub fn write_number(out: &mut List<u8>, value: i128) -> Result<(), Memory>
    ensures ok { OnOk result (out.new ≡ out.old ++ number_text value) }
    ensures err { OnErr result (out.new ≡ out.old) }
{
    if 0 <= value {
        return write_natural(out, value as u128);
    }
    write_below_zero(out, value.unsigned_abs())
}

/// States a law: a number below `2^127` in size that was written is read again.
pub fn number_again()
    ensures { (z : ℤ) → unsigned_abs z < 2 ^ 127 → number_of (number_text z) ≡ Ok z }
{}
