//! What parts cells.

ghost use Rattle.std.specs.Prelude.{◌≡◌};
ghost use Rattle.plan_cells.specs.Cells.{is_separator, separator_of};

// Whether a byte is a semicolon, a tab or a comma.
fn is_separator(byte: u8) -> bool
    ensures { result ≡ is_separator byte }
{
    byte == b';' || byte == b'\t' || byte == b','
}

/// Returns what parts the cells of a table with this first line: its first semicolon, tab or comma, or
/// spaces.
pub fn separator_of(line: &[u8]) -> u8
    ensures { result ≡ separator_of line.now }
{
    for byte in line {
        if is_separator(*byte) {
            return *byte;
        }
    }
    b' '
}
