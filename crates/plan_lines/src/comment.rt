//! Comments.

ghost use Rattle.std.specs.Prelude.{◌≡◌, ◌≤◌, ◌==◌, length};
ghost use Rattle.std.specs.List.{position_or_len};
ghost use Rattle.text_lines.specs.Lines.{before_comment};

// The place of the first byte like this one, or the length.
fn byte_at(bytes: &[u8], byte: u8) -> usize
    ensures place { result ≡ position_or_len (λ b. b == byte) bytes.now }
    ensures bound { result ≤ length bytes.now }
{
    for (i, b) in bytes.iter().enumerate() {
        if *b == byte {
            return i;
        }
    }
    bytes.len()
}

/// Returns the bytes of a line before its comment.
pub(crate) fn before_comment(line: &[u8]) -> &[u8]
    ensures { result.now ≡ before_comment line.now }
{
    &line[..byte_at(line, b'#')]
}
