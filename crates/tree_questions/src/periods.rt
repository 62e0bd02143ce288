//! The byte at a period.

ghost use Rattle.std.specs.Prelude.{◌≡◌};
ghost use Rattle.tree_questions.specs.Prices.{at_period};

/// Returns the byte at a period, which counts from 1, where there is one.
pub fn byte_at(bytes: &[u8], period: u8) -> Option<u8>
    ensures { result ≡ at_period bytes.now period }
{
    let place = (period as usize).checked_sub(1)?;
    bytes.get(place).copied()
}
