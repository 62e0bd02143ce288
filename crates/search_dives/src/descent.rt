//! A dive that is under way.

use crate::program::Program;
use crate::workspace::DiveWorkspace;

/// A dive that is under way.
#[derive(Drop)]
pub(crate) struct Descent {
    /// The node's program less the trees that are fixed.
    pub program: Program,
    /// What it works on beside that.
    pub workspace: DiveWorkspace,
}
