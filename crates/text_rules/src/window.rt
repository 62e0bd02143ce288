//! The windows of a rule.

use model_rosters::Window;

/// The windows of a rule that were written.
#[derive(Clone, Copy, Drop)]
pub struct Windows {
    pub span: Option<Window>,
    pub first: Option<Window>,
    pub last: Option<Window>,
}
