//! Which texts may be stored over.

ghost use Rattle.std.specs.Prelude.{◌≡◌};
ghost use Rattle.command_shelf.specs.Stores.{is_replaceable};

/// How many first bytes of a text show whether it may be stored over.
pub(crate) const FRONT: usize = 8;

/// What is noted of a name whose text may not be stored over.
pub(crate) const LEFT: &str = "the file is no certificate, and was left alone";

/// Returns whether a text may be stored over: an empty one, or one whose first line is `proof 1` or `proof
/// 2`, as that of each text is that this program stores.
pub(crate) fn is_replaceable(text: &[u8]) -> bool
    ensures { result ≡ is_replaceable text.now }
{
    text.is_empty()
        || text.starts_with(b"proof 1\n")
        || text.starts_with(b"proof 1\r")
        || text.starts_with(b"proof 2\n")
        || text.starts_with(b"proof 2\r")
}
