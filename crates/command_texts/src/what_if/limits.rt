//! How many bytes a roster text has at most.

/// A roster text has at most so many bytes.
pub(crate) const MOST_ROSTER: usize = 1_048_576;
