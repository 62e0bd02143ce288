//! Numbers beyond their bounds.

/// A number left its bounds.
#[derive(Clone, Copy, Debug, PartialEq, Eq, Drop)]
pub struct Grown;

/// Returns an error where numbers do not fit.
///
/// # Errors
///
/// `Grown` where they do not fit.
pub fn fitting(fits: bool) -> Result<(), Grown> {
    if fits { Ok(()) } else { Err(Grown) }
}
