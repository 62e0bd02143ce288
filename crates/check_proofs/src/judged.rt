//! What judging a text finds.

use check_certificates::Verdict;
use text_proof_pieces::PieceFault;

/// What judging a text finds.
#[derive(Clone, Copy, Debug, PartialEq, Eq, Drop)]
pub enum Judged {
    /// The verdict on the certificate that the text says.
    Said(Verdict),
    /// The first fault of the text.
    Fault(PieceFault),
}
