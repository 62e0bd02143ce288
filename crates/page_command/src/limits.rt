//! How many bytes labels and an old text have at most.

use command_answers::MOST_PROOF;

/// A labels text has at most so many bytes.
pub(crate) const MOST_LABELS: usize = 65_536;

/// An old text has at most so many bytes: a proof text has, and a report has no more.
pub(crate) const MOST_OLD: usize = MOST_PROOF;
