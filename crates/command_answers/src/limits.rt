//! How many bytes a text has at most.

/// A rules text has at most so many bytes.
pub const MOST_RULES: usize = 1_048_576;

/// A demand text has at most so many bytes.
pub const MOST_DEMAND: usize = 1_048_576;

/// A proof text has at most so many bytes.
pub const MOST_PROOF: usize = 1_073_741_824;
