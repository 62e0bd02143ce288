//! Which words may be names and codes.

ghost use Rattle.std.specs.Prelude.{◌≡◌};
ghost use Rattle.std.specs.List.{list_all};
ghost use Rattle.model_rosters.specs.Names.{
  is_code_byte,
  is_letter,
  is_name_byte,
  is_window_word,
  is_name,
};

/// Returns whether the byte may stand for a code: 0x21 to 0x7E, but no `'` and no `#`.
pub fn is_code_byte(byte: u8) -> bool
    ensures { result ≡ is_code_byte byte }
{
    33 <= byte && byte <= 126 && byte != b'\'' && byte != b'#'
}

/// Says whether a byte is a letter.
fn is_letter(byte: u8) -> bool
    ensures { result ≡ is_letter byte }
{
    byte.is_ascii_alphabetic()
}

/// Says whether a byte may stand in a name: a letter, a digit or `_`.
fn is_name_byte(byte: u8) -> bool
    ensures { result ≡ is_name_byte byte }
{
    byte.is_ascii_alphanumeric() || byte == b'_'
}

/// Says whether all bytes of a word may stand in a name.
fn are_name_bytes(word: &[u8]) -> bool
    ensures { result ≡ list_all is_name_byte word.now }
{
    word.iter().all(|byte| is_name_byte(*byte))
}

/// Returns whether the word begins a window.
#[tactic(auto, unfolding(crate::specs::Names::is_window_word))]
fn is_window_word(word: &[u8]) -> bool
    ensures { result ≡ is_window_word word.now }
{
    word == b"len".as_slice() || word == b"begin".as_slice() || word == b"end".as_slice()
}

/// Returns whether the word may be a name in a text: a letter, then letters, digits and `_`, at
/// most 32 bytes, and none of `len`, `begin` and `end`.
#[tactic(auto, unfolding(crate::specs::Names::is_name))]
pub fn is_name(word: &[u8]) -> bool
    ensures { result ≡ is_name word.now }
{
    !word.is_empty()
        && word.len() <= 32
        && is_letter(word[0])
        && are_name_bytes(word)
        && !is_window_word(word)
}
