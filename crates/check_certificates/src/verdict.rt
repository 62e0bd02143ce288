//! What a checker says.

use crate::why::Why;

/// What a checker says of a certificate.
#[derive(Clone, Copy, Debug, PartialEq, Eq, Drop)]
pub enum Verdict {
    /// The certificate is accepted, with its cost and its bound.
    Yes {
        cost: Option<u64>,
        bound: Option<u64>,
    },
    /// The certificate is refused.
    No(Why),
}
