//! Marks by number.

ghost use Rattle.std.specs.Prelude.{◌≡◌, ◌<◌, ◌↔◌, IsTrue, length};
ghost use Rattle.tree_findings.specs.Marks.{IsSet, Sets};

/// Marks a place.
pub(crate) fn set(flags: &mut [bool], place: usize)
    requires { place < length flags.old }
    ensures { Sets (λ q. q ≡ place) flags.old flags.new }
{
    flags[place] = true;
}

/// Returns whether a place is marked.
pub(crate) fn is_set(flags: &[bool], place: usize) -> bool
    ensures { IsTrue result ↔ IsSet flags.now place }
{
    match flags.get(place) {
        Some(flag) => *flag,
        None => false,
    }
}
