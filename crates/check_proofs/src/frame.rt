//! A split of which one half is open.

use model_rosters::Cut;

/// A split of which one half is open.
#[derive(Clone, Copy, Drop)]
pub struct Frame {
    /// The cut of the open half.
    pub cut: Cut,
    /// What the split's own prices show, where it has any.
    pub own: Option<u64>,
    /// What the Low half shows, once the High half is open.
    pub low: u64,
}
